#![tactic(auto)]
// Curves over the grid: their values, and the lines that stand for stretches of them.
// An exported call only calls an inner one with its clauses, so that a wrong one is refused here and not in a proof.
ghost use Rattle.curves.specs.Offsets.{offset_answer};
ghost use Rattle.curves.specs.Windows.{CloseAreCandidates, CutLosesNothing, DistancesAreValues, WhereAnswered, WithinLimits, line_window_of};
ghost use Rattle.std.specs.Prelude.{◌≡◌};

use crate::curve::Curve;
use crate::line::Line;
use crate::window::Window;

pub mod bowed;
mod close;
pub mod curve;
mod limits;
pub mod line;
pub mod listed;
pub mod refusal;
pub mod shifted;
pub mod straight;
pub mod window;

/// The line of a curve from the place on, for that many points, with its window for the threshold; none where there is no line.
pub fn line_window<C: Curve>(
    curve: &C,
    place: u32,
    length: u32,
    threshold: u64,
) -> Option<(Line, Window)>
    ensures is_the_line_and_its_window { result ≡ line_window_of (C.meaning curve.now) place length threshold }
    ensures numbers_within_their_limits { WhereAnswered result (WithinLimits (C.meaning curve.now) length) }
    ensures the_cut_loses_nothing { WhereAnswered result (CutLosesNothing (C.meaning curve.now) threshold) }
    ensures close_indices_are_candidates { WhereAnswered result (CloseAreCandidates (C.meaning curve.now) place threshold) }
    ensures without_error_distances_are_values { WhereAnswered result (DistancesAreValues (C.meaning curve.now) place) }
{
    close::window_on_line(curve, place, length, threshold)
}

/// The offset of the index k for the threshold: the value at k less half the threshold, rounded down; none where k is N or more.
pub fn offset_of<C: Curve>(curve: &C, threshold: u64, k: u32) -> Option<i64>
    ensures is_the_offset_below_the_count { result ≡ offset_answer (C.meaning curve.now) threshold k }
{
    close::offset_at(curve, threshold, k)
}

#[cfg(test)]
mod tests {
    use crate::bowed::Bowed;
    use crate::curve::Curve;
    use crate::line::Line;
    use crate::listed::{Listed, judge};
    use crate::refusal::CurveRefusal;
    use crate::shifted::Shifted;
    use crate::straight::Straight;
    use crate::window::Window;
    use crate::{line_window, offset_of};
    use std::process::Abort;
    use std::test::Fail;

    // The number of the refusal, if there is one.
    fn refused<T: Drop>(made: Result<T, CurveRefusal>) -> Option<u32> {
        made.err().map(|refusal| refusal.number())
    }

    fn some_line(reach: u32, slope: u64, offset: u64, error: u64) -> Option<Line> {
        Some(Line {
            reach,
            slope,
            offset,
            error,
        })
    }

    // The figures of the worked bowed curve, raised by 10.
    fn figures_raised_by_10<C: Curve>(rt: &impl Abort, curve: &C) {
        assert_eq!(rt; curve.modulus().get(), 1000);
        assert_eq!(rt; curve.count(), 5);
        assert_eq!(rt; curve.value(2), Some(11));
        assert_eq!(rt; curve.value(4), Some(15));
        assert_eq!(rt; curve.value(5), None);
        assert_eq!(rt; curve.line(0, 5), some_line(3, 3, 15, 2));
    }

    #[test]
    fn shifts_add_up_over_a_bowed_curve(rt: HostRuntime) -> Result<(), Fail> {
        let bowed = Bowed::new(1000, 5, 5, -3, 2, 3)?;
        assert_eq!(rt; bowed.line(0, 5), some_line(3, 3, 5, 2));
        assert_eq!(rt; bowed.line(0, 2), some_line(2, 3, 5, 0));
        figures_raised_by_10(&rt, &Shifted::new(Shifted::new(bowed, 990), 20));
        assert_eq!(rt; Shifted::new(bowed, u64::MAX).value(0), Some(620));
        Ok(())
    }

    #[test]
    fn makers_refuse_in_order(rt: HostRuntime) {
        assert_eq!(rt; refused(Straight::new(1, 0, 9, 9)), Some(1));
        assert_eq!(rt; refused(Straight::new(2, 0, 9, 9)), Some(2));
        assert_eq!(rt; refused(Straight::new(2, (1 << 20) + 1, 0, 0)), Some(2));
        assert_eq!(rt; refused(Straight::new(2, 1, 0, 2)), Some(4));
        assert_eq!(rt; refused(Bowed::new(2, 1 << 32, 9, 0, 0, 0)), Some(2));
        assert_eq!(rt; refused(Bowed::new(9, 1, 0, i64::MIN, 0, 0)), Some(4));
        assert_eq!(rt; refused(Bowed::new(9, 1, 0, 0, -(1 << 20) - 1, 0)), Some(4));
        assert_eq!(rt; refused(judge(1, &[])), Some(1));
        assert_eq!(rt; refused(judge(2, &[])), Some(2));
    }

    #[test]
    fn curves_answer_at_their_limits(rt: HostRuntime) -> Result<(), Fail> {
        let last = (1 << 20) - 1;
        let straight = Straight::new(1 << 40, 1 << 20, (1 << 40) - 1, (1 << 40) - 1)?;
        assert_eq!(rt; straight.value(last), Some((1 << 20) - 2));
        assert_eq!(rt; straight.value(last + 1), None);
        assert_eq!(rt; straight.line(last, 2), None);
        assert_eq!(rt; straight.line(0, 0), None);
        assert_eq!(rt; straight.line(u32::MAX, u32::MAX), None);
        let bowed = Bowed::new(
            1 << 40,
            1 << 20,
            (1 << 40) - 1,
            1 - (1 << 40),
            -(1 << 20),
            (1 << 40) - 1,
        )?;
        assert_eq!(rt; bowed.value(last), Some(549755813886));
        assert_eq!(rt;
            bowed.line(1046576, 2000),
            some_line(1449, 1097414475775, 650579540015, 1098517577728)
        );
        Ok(())
    }

    #[test]
    fn lists_are_read_mod_m(rt: HostRuntime) {
        let listed = Listed::new(45, &[u64::MAX, 44]);
        assert_eq!(rt; listed.value(0), Some(15));
        assert_eq!(rt; listed.count(), 2);
        assert_eq!(rt; listed.line(1, 1), some_line(1, 0, 44, 0));
        assert_eq!(rt; Shifted::new(listed, 2).value(1), Some(1));
        let empty = Listed::new(45, &[]);
        assert_eq!(rt; empty.modulus().get(), 2);
        assert_eq!(rt; empty.count(), 1);
        assert_eq!(rt; empty.value(0), Some(0));
        assert_eq!(rt; empty.line(0, 1), some_line(1, 0, 0, 0));
    }

    #[test]
    fn windows_and_offsets_take_any_threshold(rt: HostRuntime) -> Result<(), Fail> {
        let bowed = Bowed::new(1000, 5, 5, -3, 2, 3)?;
        let (_, narrow) = line_window(&bowed, 0, 5, 3).ok_or("no line")?;
        let expected = Window {
            offset: 7,
            threshold: 7,
        };
        assert_eq!(rt; narrow, expected);
        let (_, all) = line_window(&bowed, 0, 5, u64::MAX).ok_or("no line")?;
        assert_eq!(rt; all.threshold, 1000);
        assert_eq!(rt; offset_of(&bowed, 9, 2), Some(-3));
        assert_eq!(rt; offset_of(&bowed, u64::MAX, 0), Some(5 - i64::MAX));
        assert_eq!(rt; offset_of(&bowed, 9, 5), None);
        Ok(())
    }
}
