// What an arithmetic on lengths is: whole units, their order, difference, and division with rest.
ghost use Rattle.std.specs.Prelude.{◌≡◌, ℕ, ◌-◌, ◌/◌, ◌%◌, ◌^◌, ◌<◌, ◌≤◌, Bool, T, ◌⊎◌, nat_lt};

/// An arithmetic on lengths from 0 up to a modulus.
///
/// Everything that it answers is what whole units answer, without loss. It has an order and a difference of its own, and not those of std's
/// `PartialOrd` and `Sub`, whose clauses say nothing of units; nor is it made by `From`, which may not ask that a number is carried.
pub trait Arithmetic: Copy {
    /// The largest modulus that the arithmetic carries. Generic code reads it by `limit`.
    const LARGEST: u64;

    // The same number, for clauses.
    ghost largest: { ℕ };

    // How many units a length has.
    ghost units: { Self → ℕ };

    // The arithmetic's own order.
    ghost before: { Self → Self → Bool };

    /// The largest modulus: `Self::LARGEST`, which no clause of generic code can name.
    fn limit() -> u64
        ensures largest_carried { result ≡ largest };

    /// The length of n units.
    fn from_units(n: u64) -> Self
        requires carried { n ≤ largest }
        ensures has_the_units { units result ≡ n };

    /// How many units the length has.
    fn to_units(self) -> u64
        ensures tells_the_units { result ≡ units self };

    /// Whether the length is less than the other.
    fn less(self, other: Self) -> bool
        ensures tells_the_order { result ≡ before self other };

    /// The length without the other, which is no larger.
    fn minus(self, other: Self) -> Self
        requires no_larger { units other ≤ units self }
        ensures units_less_the_other { units result ≡ units self - units other };

    /// How often `by`, which is not 0, goes into the length, and the rest.
    fn divide(self, by: Self) -> (u64, Self)
        requires nonzero { 0 < units by }
        ensures quotient_of_the_units { result.0 ≡ units self / units by }
        ensures rest_of_the_units { units result.1 ≡ units self % units by };

    // Every modulus, up to 2^40, is carried.
    ghost reaches: { 2 ^ 40 ≤ largest };

    // The order is that of the units.
    ghost ordered: { (x y : Self) → before x y ≡ nat_lt (units x) (units y) };

    // Of two lengths one comes before the other, or they have the same units.
    ghost total: { (x y : Self) → T (before x y) ⊎ ((units x ≡ units y) ⊎ T (before y x)) };
}
