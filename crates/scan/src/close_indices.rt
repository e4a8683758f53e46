// The close indices of a range, one after the other.
ghost use Rattle.curves.specs.Closes.{close_between};
ghost use Rattle.std.specs.Iterator.{YieldsFirst, item_count};
ghost use Rattle.std.specs.Prelude.{◌≡◌, ◌≤◌, min};

use crate::next_close;
use curves::curve::Curve;
use lengths::arithmetic::Arithmetic;
use std::marker::PhantomData;

/// The close indices of a range of a curve, rising. Each is found along the curve's lines when it is asked for.
#[derive(Drop)]
pub struct CloseIndices<'c, A: Arithmetic, C: Curve> {
    curve: &'c C,
    threshold: u64,
    next: u32,
    end: u32,
    arithmetic: PhantomData<A>,
    ghost end_is_within: { end ≤ (C.meaning curve.now).count },
}

impl<'c, A: Arithmetic, C: Curve> CloseIndices<'c, A, C> {
    /// Those from `from` on, below `to` and below the curve's count, for the threshold.
    pub fn new(curve: &'c C, threshold: u64, from: u32, to: u32) -> CloseIndices<'c, A, C>
        ensures of_this_curve { result.curve.now ≡ curve.now }
        ensures for_this_threshold { result.threshold ≡ threshold }
        ensures from_this_index { result.next ≡ from }
        ensures up_to_the_lesser_end { result.end ≡ min to (C.meaning curve.now).count }
    {
        CloseIndices {
            curve,
            threshold,
            next: from,
            end: to.min(curve.count()),
            arithmetic: PhantomData,
        }
    }
}

impl<'c, A: Arithmetic, C: Curve> Iterator for CloseIndices<'c, A, C> {
    type Item = u32;

    ghost next_gives = { YieldsFirst (λ s. close_between (C.Curve.meaning s.curve.now) s.threshold s.next s.end) };

    ghost remaining = { item_count (λ s. close_between (C.Curve.meaning s.curve.now) s.threshold s.next s.end) };

    #[tactic(auto, using(crate::proofs::Left::least_first, crate::proofs::Left::none_is_left))]
    fn next(&mut self) -> Option<u32> {
        let index = next_close::<A, C>(self.curve, self.threshold, self.next, self.end)?;
        self.next = index + 1;
        Some(index)
    }
}
