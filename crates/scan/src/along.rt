// Steps along the lines of a curve.
ghost use Rattle.scan.specs.Passed.{CandidateIsClose, PassesNoneClose, StaysWithin};
ghost use Rattle.scan.specs.Steps.{step_of};
ghost use Rattle.std.specs.Prelude.{◌≡◌};

use crate::steps::Step;
use crate::windows::{search_reach, tell};
use curves::curve::Curve;
use curves::line_window;
use lengths::arithmetic::Arithmetic;

/// The step from the place up to the end, with what the laws of windows say of it.
pub(crate) fn step_along<A: Arithmetic, C: Curve>(
    curve: &C,
    threshold: u64,
    place: u32,
    end: u32,
) -> Option<Step>
    ensures is_the_step_along_the_line { result ≡ step_of (C.meaning curve.now) threshold place end }
    ensures stays_within_the_range { StaysWithin (C.meaning curve.now) place end result }
    ensures passes_over_no_close_index { PassesNoneClose (C.meaning curve.now) threshold place result }
    ensures without_error_a_candidate_is_close { CandidateIsClose (C.meaning curve.now) threshold place end result }
{
    let (line, window) = line_window(curve, place, end.saturating_sub(place), threshold)?;
    let answer = search_reach::<A>(curve.modulus(), line, window);
    Some(tell(line.reach, answer))
}
