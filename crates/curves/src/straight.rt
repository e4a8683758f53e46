// Straight curves.
ghost use Rattle.std.specs.Prelude.{◌^◌, ◌<◌, ◌≤◌};

use grid::modulus::Modulus;

mod answers;
mod making;

// The modulus and the count stand in each curve and not in a struct for both: its clauses name them as the curve's own.

/// F(k) = (offset − k·slope) mod M for k below the count.
#[derive(Clone, Copy, PartialEq, Eq, Debug)]
pub struct Straight {
    modulus: Modulus,
    count: u32,
    slope: u64,
    offset: u64,
    ghost count_within: { (1 ≤ count) × (count ≤ 2 ^ 20) },
    ghost slope_below: { slope < modulus.value },
    ghost offset_below: { offset < modulus.value },
}
