// Lengths as whole numbers in a 64-bit float.
ghost use Rattle.std.specs.Prelude.{◌≡◌, ◌-◌, ◌^◌, ◌≤◌};
ghost use Rattle.std.specs.Float.Ieee as Ieee;
ghost use Rattle.std.specs.Float.{binary64};
ghost use Rattle.lengths.specs.Whole.{units_of, WholeUpTo};

use crate::arithmetic::Arithmetic;

/// A whole number of units, from 0 to 2^40, kept in a float.
#[derive(Clone, Copy, PartialEq, Debug)]
pub struct Double {
    units: f64,
    ghost whole: { WholeUpTo binary64 (2 ^ 40) units },
}

impl Arithmetic for Double {
    ghost use Rattle.std.proofs.Common.{rules, lit≤};
    ghost use Rattle.lengths.specs.Exact.{order_is_that_of_units};
    ghost use Rattle.lengths.specs.Ordered.{total_over_units};

    const LARGEST: u64 = 1 << 40;

    ghost largest = { 2 ^ 40 };

    ghost units = { λ x. units_of x.units };

    ghost before = { λ x y. Ieee.lt x.units y.units };

    ghost reaches = { Prim.search rules };

    // The order's lemma stands in both laws: the law of an impl cannot name another of its members.
    ghost ordered = { λ x y. order_is_that_of_units binary64 (2 ^ 40) (lit≤ tt) x.units y.units x.whole y.whole };

    ghost total = { total_over_units (λ x. units_of x.units) (λ x y. Ieee.lt x.units y.units) (λ x y. order_is_that_of_units binary64 (2 ^ 40) (lit≤ tt) x.units y.units x.whole y.whole) };

    fn limit() -> u64 {
        Self::LARGEST
    }

    fn from_units(n: u64) -> Double {
        Double { units: kept(n) }
    }

    fn to_units(self) -> u64 {
        self.units as u64
    }

    fn less(self, other: Double) -> bool {
        self.units < other.units
    }

    fn minus(self, other: Double) -> Double {
        Double {
            units: difference(self.units, other.units),
        }
    }

    fn divide(self, by: Double) -> (u64, Double) {
        let dividend = self.to_units();
        let divisor = by.to_units();
        (dividend / divisor, Self::from_units(dividend % divisor))
    }
}

/// The float that is n.
fn kept(n: u64) -> f64
    requires carried { n ≤ 2 ^ 40 }
    ensures whole { WholeUpTo binary64 (2 ^ 40) result }
    ensures same_number { units_of result ≡ n }
{
    n as f64
}

/// The difference of whole numbers, which the format holds exactly.
fn difference(x: f64, y: f64) -> f64
    requires whole { (WholeUpTo binary64 (2 ^ 40) x) × (WholeUpTo binary64 (2 ^ 40) y) }
    requires no_larger { units_of y ≤ units_of x }
    ensures whole { WholeUpTo binary64 (2 ^ 40) result }
    ensures exact { units_of result ≡ units_of x - units_of y }
{
    x - y
}
