// A claim within its limits.
ghost use Rattle.std.specs.Prelude.{◌≡◌, T, ◌↔◌};
ghost use Rattle.search.specs.Configurations.{gap};
ghost use Rattle.search.specs.Vouching.{Within, Fills, Clears, config_of};

use crate::claim::Claim;
use crate::evidence::Evidence;

/// A claim whose numbers keep their limits.
#[derive(Clone, Copy, PartialEq, Eq, Debug)]
pub(super) struct Limited {
    pub(super) claim: Claim,
    ghost within: { Within claim.modulus.value claim.points claim.numbers },
}

impl Limited {
    /// Whether the gaps u times x and v times y fill the circle, as steps of the slope.
    pub(super) fn fills(self) -> bool
        ensures true_exactly_when_they_fill_the_circle { T result ↔ Fills self.claim.modulus.value self.claim.slope self.claim.numbers }
    {
        let Claim { modulus, slope, .. } = self.claim;
        let Evidence { u, v, x, y, .. } = self.claim.numbers;
        modulus.residue(x) == modulus.residue_product(v, slope)
            && modulus.residue(y) == modulus.residue_difference(0, u, slope)
            && u as u128 * x as u128 + v as u128 * y as u128 == modulus.get() as u128
    }

    /// The gap after point r among the points.
    fn gap(self) -> u64
        ensures the_gap { result ≡ gap self.claim.points (config_of self.claim.numbers) self.claim.numbers.r }
    {
        let Evidence { u, v, x, y, r } = self.claim.numbers;
        if r < self.claim.points - v {
            x
        } else if u <= r {
            y
        } else {
            x + y
        }
    }

    /// Whether the offset lies the threshold or more above point r, and in the gap after it.
    pub(super) fn clears(self) -> bool
        ensures true_exactly_when_the_offset_is_clear { T result ↔ Clears self.claim.modulus.value self.claim.slope self.claim.offset self.claim.threshold self.claim.points self.claim.numbers }
    {
        let Claim {
            modulus,
            slope,
            offset,
            threshold,
            ..
        } = self.claim;
        let w = modulus.residue_difference(offset, self.claim.numbers.r, slope);
        (threshold..self.gap()).contains(&w)
    }
}
