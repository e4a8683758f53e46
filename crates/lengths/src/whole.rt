// Lengths as 64-bit whole numbers.
ghost use Rattle.std.specs.Prelude.{◌^◌, nat_lt};
ghost use Rattle.std.proofs.Common.{rules};

use crate::arithmetic::Arithmetic;

impl Arithmetic for u64 {
    const LARGEST: u64 = 1 << 40;

    ghost largest = { 2 ^ 40 };

    ghost units = { λ x. x };

    ghost before = { λ x y. nat_lt x y };

    ghost reaches = { Prim.search rules };

    ghost ordered = { Prim.search rules };

    ghost total = { Prim.search rules };

    fn limit() -> u64 {
        Self::LARGEST
    }

    fn from_units(n: u64) -> u64 {
        n
    }

    fn to_units(self) -> u64 {
        self
    }

    fn less(self, other: u64) -> bool {
        self < other
    }

    fn minus(self, other: u64) -> u64 {
        self - other
    }

    fn divide(self, by: u64) -> (u64, u64) {
        (self / by, self % by)
    }
}
