// Where close indices can lie, on any curve.
ghost use Rattle.std.specs.Prelude.{◌≡◌, ◌/◌, ◌^◌, ◌<◌, pos, ◌-ℤ◌};
ghost use Rattle.curves.specs.Offsets.{offset_answer};
ghost use Rattle.curves.specs.Windows.{CloseAreCandidates, CutLosesNothing, DistancesAreValues, WhereAnswered, WithinLimits, line_window_of};

use crate::curve::Curve;
use crate::line::Line;
use crate::window::Window;

/// The line from the place on, with its window, and what the curve's facts say of both.
pub(crate) fn window_on_line<C: Curve>(
    curve: &C,
    place: u32,
    length: u32,
    threshold: u64,
) -> Option<(Line, Window)>
    ensures is_the_line_and_its_window { result ≡ line_window_of (C.meaning curve.now) place length threshold }
    ensures numbers_within_their_limits { WhereAnswered result (WithinLimits (C.meaning curve.now) length) }
    ensures the_cut_loses_nothing { WhereAnswered result (CutLosesNothing (C.meaning curve.now) threshold) }
    ensures close_indices_are_candidates { WhereAnswered result (CloseAreCandidates (C.meaning curve.now) place threshold) }
    ensures without_error_distances_are_values { WhereAnswered result (DistancesAreValues (C.meaning curve.now) place) }
{
    let line = curve.line(place, length)?;
    Some((line, Window::over(curve.modulus(), line, threshold)))
}

/// The value less half the threshold, rounded down. Not exported for those who have the numbers: an exported call may
/// have no `requires`.
fn above_half(value: u64, threshold: u64) -> i64
    requires below_every_modulus { value < 2 ^ 40 }
    ensures is_the_difference { result ≡ pos value -ℤ pos (threshold / 2) }
{
    value as i64 - (threshold / 2) as i64
}

/// The offset of the index k for the threshold.
pub(crate) fn offset_at<C: Curve>(curve: &C, threshold: u64, k: u32) -> Option<i64>
    ensures is_the_offset_below_the_count { result ≡ offset_answer (C.meaning curve.now) threshold k }
{
    let value = curve.value(k)?;
    Some(above_half(value, threshold))
}
