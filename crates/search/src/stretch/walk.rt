// A walk along a stretch.
ghost use Rattle.std.specs.Prelude.{◌≡◌, ◌≤◌};

use crate::stretch::Stretch;
use lengths::arithmetic::Arithmetic;

/// A stretch that is walked in the lengths of an arithmetic, and its threshold as a length.
///
/// That the walk stands at a place, `under_way`, stays a clause of the methods: a ghost field holds a fact that has one proof at most, and
/// this one has many.
#[derive(Drop)]
pub(crate) struct Walk<A: Arithmetic> {
    pub stretch: Stretch,
    pub near: A,
    ghost carried: { stretch.modulus.value ≤ A.largest },
    ghost near_is_the_threshold: { A.units near ≡ stretch.threshold },
}
