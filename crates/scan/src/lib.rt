#![tactic(auto)]
// The close indices of any curve, found along its lines, in any arithmetic.
// An exported call only calls an inner one with its clauses, so that a wrong one is refused here and not in a proof.
ghost use Rattle.scan.specs.Nexts.{NextClose};
ghost use Rattle.scan.specs.Passed.{CandidateIsClose, PassesNoneClose, StaysWithin};
ghost use Rattle.scan.specs.Steps.{step_of};
ghost use Rattle.std.specs.Prelude.{◌≡◌};

use crate::steps::Step;
use curves::curve::Curve;
use lengths::arithmetic::Arithmetic;

mod along;
pub mod close_indices;
mod nexts;
pub mod steps;
mod windows;

/// One step from the place up to the end: the search of the line there, in its window; none where there is no line.
pub fn step<A: Arithmetic, C: Curve>(
    curve: &C,
    threshold: u64,
    place: u32,
    end: u32,
) -> Option<Step>
    ensures is_the_step_along_the_line { result ≡ step_of (C.meaning curve.now) threshold place end }
    ensures stays_within_the_range { StaysWithin (C.meaning curve.now) place end result }
    ensures passes_over_no_close_index { PassesNoneClose (C.meaning curve.now) threshold place result }
    ensures without_error_a_candidate_is_close { CandidateIsClose (C.meaning curve.now) threshold place end result }
{
    along::step_along::<A, C>(curve, threshold, place, end)
}

/// The least index k from `from` on, below `to` and below the count, whose value is below the threshold; none where there is none. The struct
/// of its parameters is `CloseIndices`.
pub fn next_close<A: Arithmetic, C: Curve>(
    curve: &C,
    threshold: u64,
    from: u32,
    to: u32,
) -> Option<u32>
    ensures is_the_least_close_index_of_the_range { NextClose (C.meaning curve.now) threshold from to result }
{
    nexts::first_close::<A, C>(curve, threshold, from, to)
}

#[cfg(test)]
mod tests {
    use crate::next_close;
    use curves::bowed::Bowed;
    use curves::curve::Curve;
    use curves::shifted::Shifted;
    use lengths::arithmetic::Arithmetic;
    use lengths::double::Double;
    use std::process::Abort;
    use std::test::Fail;

    // The close indices one after the other are those that a look at every value finds.
    fn finds_what_the_values_show<A: Arithmetic, C: Curve>(
        rt: &impl Abort,
        curve: &C,
        threshold: u64,
    ) {
        let end = curve.count();
        let mut from = 0;
        for k in 0..end {
            if let Some(value) = curve.value(k) {
                if value < threshold {
                    assert_eq!(rt; next_close::<A, C>(curve, threshold, from, end), Some(k));
                    from = k + 1;
                }
            }
        }
        assert_eq!(rt; next_close::<A, C>(curve, threshold, from, end), None);
    }

    #[test]
    fn both_arithmetics_find_what_the_values_show(rt: HostRuntime) -> Result<(), Fail> {
        let bowed = Bowed::new(997, 500, 10, -37, 1, 40)?;
        let curve = Shifted::new(Shifted::new(bowed, 5), 996);
        finds_what_the_values_show::<u64, Shifted<Shifted<Bowed>>>(&rt, &curve, 20);
        finds_what_the_values_show::<Double, Shifted<Shifted<Bowed>>>(&rt, &curve, 20);
        Ok(())
    }
}
