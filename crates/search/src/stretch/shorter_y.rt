// A batch of steps that shorten y. It does not mirror that of x: something of x has to be left and the point moves once, while y may be used
// up and the point moves with each step.
ghost use Rattle.std.specs.Prelude.{◌≡◌, ◌+◌, ◌-◌, ◌*◌, ◌^◌, ◌<◌, ◌≤◌};
ghost use Rattle.search.specs.Walk.{ClosesY, MovesY, ShortensY, Turned, Walking, shorter_y, spot};

use crate::batches::{Batch, steps_for, take_off};
use crate::place::{Hit, Place};
use crate::stretch::walk::Walk;
use lengths::arithmetic::Arithmetic;
use std::ops::ControlFlow;

/// The hit of the move after the g-th, with the lengths after `i` steps.
fn hit_after<A: Arithmetic>(s: Place<A>, g: u64, i: u64) -> Hit
    requires within_the_gap { ((g + 1) * A.units s.x ≤ A.units s.d) × (A.units s.d ≤ A.units s.y) }
    requires small { (s.u ≤ s.r) × ((s.r + (g + 1) * s.v < 2 ^ 32) × (g < 2 ^ 32)) }
    requires steps { i ≤ g + 1 }
    ensures the_next_point_with_evidence { result ≡ record { index = s.r + (g + 1) * s.v; value = A.units s.d - (g + 1) * A.units s.x; evidence = shorter_y (spot A.units s) i (s.r + g * s.v) } }
{
    Hit {
        index: s.r + (g + 1) * s.v,
        value: s.d.to_units() - (g + 1) * s.x.to_units(),
        evidence: s.evidence_after_y(i, s.r + g * s.v),
    }
}

impl<A: Arithmetic> Walk<A> {
    /// The steps: as often as x goes into y, or as there are points enough with.
    fn batch_y(&self, s: Place<A>) -> Batch<A>
        requires under_way { Walking self.now.stretch (spot A.units s) }
        requires x_is_no_longer { A.units s.x ≤ A.units s.y }
        ensures steps_of_y { ShortensY self.now.stretch.points (spot A.units s) result.steps }
        ensures the_rest { A.units result.rest ≡ A.units s.y - result.steps * A.units s.x }
        ensures few { result.steps * s.v < 2 ^ 21 }
    {
        let most = steps_for(self.stretch.points - (s.u + s.v), s.v);
        take_off(s.y, s.x, most)
    }

    /// The moves of the point below the offset: as often as it stays below, in as many steps and as long as there are points.
    fn moves_y(&self, s: Place<A>, steps: u64) -> Batch<A>
        requires under_way { Walking self.now.stretch (spot A.units s) }
        requires in_a_y_gap { s.u ≤ s.r }
        ensures the_moves { MovesY self.now.stretch.points (spot A.units s) steps result.steps }
        ensures the_distance { A.units result.rest ≡ A.units s.d - result.steps * A.units s.x }
    {
        let room = (self.stretch.points - 1 - s.r) / s.v;
        take_off(s.d, s.x, steps.min(room))
    }

    /// How many of `moves` leave the offset at the threshold or above it, where all of them do not.
    fn moves_before(&self, s: Place<A>, moves: u64) -> u64
        requires far { self.now.stretch.threshold ≤ A.units s.d }
        requires all_are_too_many { A.units s.d - moves * A.units s.x < self.now.stretch.threshold }
        ensures one_more_is_close { ClosesY self.now.stretch.threshold (spot A.units s) moves result }
    {
        (s.d.to_units() - self.stretch.threshold) / s.x.to_units()
    }

    /// Shortens y by x as often as it goes, or until there are points enough. Where the offset lies in a y gap, the point below it moves
    /// by x with each step, as long as it stays below and there are points.
    pub(crate) fn shorten_y(&self, s: Place<A>) -> ControlFlow<Hit, Place<A>>
        requires under_way { Walking self.now.stretch (spot A.units s) }
        requires x_is_no_longer { A.units s.x ≤ A.units s.y }
        ensures hits_or_goes_on { Turned A.units self.now.stretch (spot A.units s) result }
    {
        let batch = self.batch_y(s);
        let stays = Place {
            u: s.u + batch.steps * s.v,
            y: batch.rest,
            ..s
        };
        if s.r < s.u {
            return ControlFlow::Continue(stays);
        }
        let moves = self.moves_y(s, batch.steps);
        if moves.rest.less(self.near) {
            let g = self.moves_before(s, moves.steps);
            let i = if s.r == s.u { g } else { g + 1 };
            return ControlFlow::Break(hit_after(s, g, i));
        }
        ControlFlow::Continue(Place {
            r: s.r + moves.steps * s.v,
            d: moves.rest,
            ..stays
        })
    }
}
