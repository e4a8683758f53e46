// A stretch of points on a line, to be searched.
ghost use Rattle.std.specs.Prelude.{◌^◌, ◌<◌, ◌≤◌};

use grid::modulus::Modulus;

mod making;
mod searching;
mod shorter_x;
mod shorter_y;
mod walk;

/// The points b − k·a mod M for k below `points`, with the threshold under which one counts as close.
#[derive(Clone, Copy, PartialEq, Eq, Debug)]
pub struct Stretch {
    modulus: Modulus,
    slope: u64,
    offset: u64,
    threshold: u64,
    points: u64,
    ghost slope_below: { slope < modulus.value },
    ghost offset_below: { offset < modulus.value },
    ghost threshold_within: { threshold ≤ modulus.value },
    ghost points_within: { (1 ≤ points) × (points ≤ 2 ^ 20) },
}
