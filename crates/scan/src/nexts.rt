// The next close index of a range.
ghost use Rattle.scan.specs.Nexts.{NextClose, is_close};
ghost use Rattle.std.specs.Prelude.{◌≡◌};

use crate::along::step_along;
use crate::steps::Step;
use curves::curve::Curve;
use lengths::arithmetic::Arithmetic;

/// Whether the curve has the index and its value is below the threshold.
fn is_close<C: Curve>(curve: &C, threshold: u64, index: u32) -> bool
    ensures tells_whether_it_is_close { result ≡ is_close (C.meaning curve.now) threshold index }
{
    curve.value(index).is_some_and(|value| value < threshold)
}

/// Step by step from `from` on: behind what a step passes over, and behind a candidate whose value is not below the threshold. A `while`,
/// since only the step at a place says where the next one is taken.
pub(crate) fn first_close<A: Arithmetic, C: Curve>(
    curve: &C,
    threshold: u64,
    from: u32,
    to: u32,
) -> Option<u32>
    ensures is_the_least_close_index_of_the_range { NextClose (C.meaning curve.now) threshold from to result }
{
    let end = to.min(curve.count());
    let mut place = from;
    while let Some(step) = step_along::<A, C>(curve, threshold, place, end) {
        match step {
            Step::Clean { reach, .. } => place += reach,
            Step::Candidate { after, .. } => {
                let index = place + after;
                if is_close(curve, threshold, index) {
                    return Some(index);
                }
                place = index + 1;
            }
        }
    }
    None
}
