// The claim that five numbers vouch for the points of a stretch, and its test.
ghost use Rattle.std.specs.Prelude.{◌≡◌, T, ◌↔◌, MatchOption};
ghost use Rattle.search.specs.Laws.{NumbersVouchExactlyWhenNoPointIsClose, VouchingNumbersGiveTheLeastDistance};
ghost use Rattle.search.specs.Vouching.{Vouches, Within, vouching};

use crate::claim::limited::Limited;
use crate::evidence::Evidence;
use grid::modulus::Modulus;

mod limited;

/// The claim that no (offset − k·slope) mod modulus for k below `points` is less than the threshold, with five numbers for it.
/// Not a stretch, which keeps its limits: a claim is made of any numbers.
#[derive(Clone, Copy, PartialEq, Eq, Debug)]
pub(crate) struct Claim {
    pub modulus: Modulus,
    pub slope: u64,
    pub offset: u64,
    pub threshold: u64,
    pub points: u64,
    pub numbers: Evidence,
}

impl Claim {
    /// The claim with its limits, where the numbers keep them: u and v from 1 to n, n at most their sum, x and y at most the modulus, r
    /// below n.
    fn limited(self) -> Option<Limited>
        ensures some_exactly_within_the_limits { MatchOption result (Within self.modulus.value self.points self.numbers → ⊥) (λ l. l.claim ≡ self) }
    {
        let most = self.modulus.get();
        let Evidence { u, v, x, y, r } = self.numbers;
        // An `if` and not `then`: in the closure the proof of the ghost field lacks what the test tells.
        if (1..=self.points).contains(&u)
            && (1..=self.points).contains(&v)
            && self.points - u <= v
            && x <= most
            && y <= most
            && r < self.points
        {
            Some(Limited { claim: self })
        } else {
            None
        }
    }

    /// Whether the numbers vouch.
    fn is_met(self) -> bool
        ensures true_exactly_when_they_vouch { T result ↔ Vouches self.modulus.value self.slope self.offset self.threshold self.points self.numbers }
    {
        self.limited().is_some_and(|l| l.fills() && l.clears())
    }

    /// The same, with the laws that make the numbers worth asking for.
    pub(crate) fn holds(self) -> bool
        ensures true_exactly_when_they_vouch { T result ↔ Vouches self.modulus.value self.slope self.offset self.threshold self.points self.numbers }
        ensures is_the_test_of_the_numbers { result ≡ vouching self.modulus.value self.slope self.offset self.threshold self.points self.numbers }
        ensures vouching_numbers_give_the_least_distance { VouchingNumbersGiveTheLeastDistance }
        ensures numbers_vouch_exactly_when_no_point_is_close { NumbersVouchExactlyWhenNoPointIsClose }
    {
        self.is_met()
    }
}
