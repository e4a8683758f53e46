// Bowed curves.
ghost use Rattle.std.specs.Prelude.{◌^◌, ◌<◌, ◌≤◌, unsigned_abs};

use grid::modulus::Modulus;

mod answers;
mod making;
mod reach;
mod values;

/// F(k) = (c0 + c1·k + c2·k(k − 1)/2) mod M for k below the count. A line may leave the curve by the tolerance at most.
#[derive(Clone, Copy, PartialEq, Eq, Debug)]
pub struct Bowed {
    modulus: Modulus,
    count: u32,
    c0: u64,
    c1: i64,
    c2: i64,
    tolerance: u64,
    ghost count_within: { (1 ≤ count) × (count ≤ 2 ^ 20) },
    ghost c0_below: { c0 < modulus.value },
    ghost c1_below: { unsigned_abs c1 < modulus.value },
    ghost c2_within: { unsigned_abs c2 ≤ 2 ^ 20 },
    ghost tolerance_below: { tolerance < modulus.value },
}
