// A modulus: how many units the circle has.
ghost use Rattle.std.specs.Prelude.{◌^◌, ◌≤◌};

mod make;
mod residues;

/// A whole number from 2 to 2^40.
#[derive(Clone, Copy, PartialEq, Eq, Debug)]
pub struct Modulus {
    value: u64,
    ghost within: { (2 ≤ value) × (value ≤ 2 ^ 40) },
}
