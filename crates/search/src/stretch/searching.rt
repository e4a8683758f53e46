// The search of a stretch.
ghost use Rattle.std.specs.Prelude.{◌≡◌, ◌≤◌};
ghost use Rattle.search.specs.Answers.{answer};
ghost use Rattle.search.specs.Laws.{ConfigurationIsTheFirstLongEnough, ExactlyOneGapHoldsTheOffset};
ghost use Rattle.search.specs.Walk.{Ended, Opened, spot, started};

use crate::answer::Answer;
use crate::evidence::Evidence;
use crate::place::{Hit, Place};
use crate::stretch::Stretch;
use crate::stretch::walk::Walk;
use lengths::arithmetic::Arithmetic;
use std::ops::ControlFlow;

impl<A: Arithmetic> Walk<A> {
    /// The walk along the stretch: every arithmetic carries every modulus.
    fn along(stretch: Stretch) -> Walk<A>
        ensures along_the_stretch { result.stretch ≡ stretch }
    {
        Walk {
            stretch,
            near: A::from_units(stretch.threshold),
        }
    }

    /// The place over one point, the point 0 itself.
    fn first_place(&self) -> Place<A>
        ensures the_first_configuration { spot A.units result ≡ started self.now.stretch.modulus.value self.now.stretch.slope self.now.stretch.offset }
    {
        Place {
            u: 1,
            v: 1,
            x: A::from_units(self.stretch.slope),
            y: A::from_units(self.stretch.modulus.get() - self.stretch.slope),
            r: 0,
            d: A::from_units(self.stretch.offset),
        }
    }

    /// The place over two points, or the hit of the point 1.
    fn second_place(&self) -> ControlFlow<Hit, Place<A>>
        requires two_points { 2 ≤ self.now.stretch.points }
        requires zero_is_not_close { self.now.stretch.threshold ≤ self.now.stretch.offset }
        ensures hits_or_walks { Opened A.units self.now.stretch result }
    {
        let s = self.first_place();
        if self.stretch.offset < self.stretch.slope {
            return ControlFlow::Continue(s);
        }
        let d = self.stretch.offset - self.stretch.slope;
        if d < self.stretch.threshold {
            return ControlFlow::Break(Hit {
                index: 1,
                value: d,
                evidence: s.evidence(),
            });
        }
        ControlFlow::Continue(Place {
            r: 1,
            d: A::from_units(d),
            ..s
        })
    }

    /// The evidence for all the points, or the hit on the way: batch by batch of steps, each of the longer length.
    fn to_the_end(&self) -> ControlFlow<Hit, Evidence>
        requires two_points { 2 ≤ self.now.stretch.points }
        requires zero_is_not_close { self.now.stretch.threshold ≤ self.now.stretch.offset }
        ensures hits_or_ends { Ended self.now.stretch result }
    {
        let mut s = self.second_place()?;
        while s.u + s.v < self.stretch.points {
            s = if s.y.less(s.x) {
                self.shorten_x(s)?
            } else {
                self.shorten_y(s)?
            };
        }
        ControlFlow::Continue(s.evidence())
    }

    /// The least close index with its evidence, or the evidence that there is none.
    fn least_close(&self) -> Answer
        ensures the_answer { result ≡ answer self.now.stretch.modulus.value self.now.stretch.slope self.now.stretch.offset self.now.stretch.threshold self.now.stretch.points }
    {
        if self.stretch.offset < self.stretch.threshold {
            return Answer::Close {
                index: 0,
                value: self.stretch.offset,
                evidence: None,
            };
        }
        if self.stretch.points == 1 {
            return Answer::Clear {
                evidence: self.first_place().evidence(),
            };
        }
        match self.to_the_end() {
            ControlFlow::Break(
                Hit {
                    index,
                    value,
                    evidence,
                },
            ) => Answer::Close {
                index,
                value,
                evidence: Some(evidence),
            },
            ControlFlow::Continue(evidence) => Answer::Clear { evidence },
        }
    }
}

/// The same with the laws that the evidence rests on.
fn searched<A: Arithmetic>(stretch: Stretch) -> Answer
    ensures the_answer { result ≡ answer stretch.modulus.value stretch.slope stretch.offset stretch.threshold stretch.points }
    ensures its_configuration_is_the_first_long_enough { ConfigurationIsTheFirstLongEnough }
    ensures exactly_one_gap_holds_the_offset { ExactlyOneGapHoldsTheOffset }
{
    Walk::<A>::along(stretch).least_close()
}

impl Stretch {
    /// The least close index with its value and its evidence, or the evidence that no index is close.
    pub fn search<A: Arithmetic>(self) -> Answer
        ensures the_least_close_index_or_none_with_evidence { result ≡ answer self.modulus.value self.slope self.offset self.threshold self.points }
        ensures its_configuration_is_the_first_long_enough { ConfigurationIsTheFirstLongEnough }
        ensures exactly_one_gap_holds_the_offset { ExactlyOneGapHoldsTheOffset }
    {
        searched::<A>(self)
    }
}
