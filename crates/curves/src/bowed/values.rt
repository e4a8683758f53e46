// The values of bowed curves and the slopes of their lines.
ghost use Rattle.std.specs.Prelude.{◌≡◌, ◌^◌, ◌<◌, ◌≤◌, ℤ, pos, ◌+ℤ◌, ◌*ℤ◌, neg_ℤ};
ghost use Rattle.curves.specs.Kinds.{bowed_value, pairs};
ghost use Rattle.grid.specs.Residue.{residue};

use crate::bowed::Bowed;
use grid::modulus::Modulus;

/// k(k − 1)/2.
pub(super) fn pairs_among(k: u32) -> u64
    requires few { k ≤ 2 ^ 20 }
    ensures is_half_the_product { result ≡ pairs k }
    ensures stays_small { result ≤ 2 ^ 39 }
{
    k as u64 * k.saturating_sub(1) as u64 / 2
}

/// (c0 + y + z) mod M for all y with the residue p and z with the residue q.
fn sum_of(modulus: Modulus, c0: u64, p: u64, q: u64) -> u64
    requires residues { (c0 < modulus.value) × ((p < modulus.value) × (q < modulus.value)) }
    ensures of_all_with_the_residues { (y z : ℤ) → p ≡ residue modulus.value y → q ≡ residue modulus.value z → result ≡ residue modulus.value ((pos c0 +ℤ y) +ℤ z) }
{
    modulus.residue(c0 + p + q)
}

/// −(y + z) mod M for all y with the residue p and z with the residue q.
fn negated_sum_of(modulus: Modulus, p: u64, q: u64) -> u64
    requires residues { (p < modulus.value) × (q < modulus.value) }
    ensures of_all_with_the_residues { (y z : ℤ) → p ≡ residue modulus.value y → q ≡ residue modulus.value z → result ≡ residue modulus.value (neg_ℤ (y +ℤ z)) }
{
    modulus.residue_difference(0, 1, p + q)
}

// The products are taken mod M where all products are, in `grid`, and not as plain 64-bit numbers here.
impl Bowed {
    /// (c0 + c1·k + c2·k(k − 1)/2) mod M.
    pub(super) fn value_at(self, k: u32) -> u64
        requires an_index { k < self.count }
        ensures is_the_value { result ≡ bowed_value self.modulus.value self.c0 self.c1 self.c2 k }
    {
        let climb = self.modulus.residue_signed_product(self.c1, u64::from(k));
        let bend = self.modulus.residue_signed_product(self.c2, pairs_among(k));
        sum_of(self.modulus, self.c0, climb, bend)
    }

    /// −(c1 + c2·s) mod M.
    pub(super) fn slope_at(self, s: u32) -> u64
        ensures is_the_slope { result ≡ residue self.modulus.value (neg_ℤ (self.c1 +ℤ (self.c2 *ℤ pos s))) }
    {
        let climb = self.modulus.residue_signed(self.c1);
        let bend = self.modulus.residue_signed_product(self.c2, u64::from(s));
        negated_sum_of(self.modulus, climb, bend)
    }
}
