// Numbers mod M. Every residue, and above all every residue of a product, is computed here. That a residue is below M is said by each
// method and not by a type of residues, which would put a wrapper round every number above.
ghost use Rattle.std.specs.Prelude.{◌≡◌, ℕ, ◌*◌, ◌%◌, ◌<◌, ℤ, pos, ◌-ℤ◌, ◌*ℤ◌, unsigned_abs};
ghost use Rattle.grid.specs.Residue.{residue};

use crate::modulus::Modulus;

impl Modulus {
    /// n mod M.
    pub fn residue(self, n: u64) -> u64
        ensures is_the_residue { result ≡ residue self.value (pos n) }
        ensures below_the_modulus { result < self.value }
    {
        n % self.value
    }

    /// z mod M, from 0 to M - 1 where z is negative too.
    pub fn residue_signed(self, z: i64) -> u64
        ensures is_the_residue { result ≡ residue self.value z }
        ensures below_the_modulus { result < self.value }
    {
        z.rem_euclid(self.value as i64) as u64
    }

    /// a·b mod M.
    pub fn residue_product(self, a: u64, b: u64) -> u64
        ensures is_the_residue { result ≡ residue self.value (pos (a * b)) }
        ensures below_the_modulus { result < self.value }
    {
        match a.checked_mul(b) {
            Some(product) => self.residue(product),
            None => (a as u128 * b as u128 % self.value as u128) as u64,
        }
    }

    /// c·k mod M.
    pub fn residue_signed_product(self, c: i64, k: u64) -> u64
        ensures is_the_residue { result ≡ residue self.value (c *ℤ pos k) }
        ensures below_the_modulus { result < self.value }
    {
        self.with_the_sign(c, self.residue_product(self.residue(c.unsigned_abs()), k))
    }

    /// (b - k·a) mod M.
    pub fn residue_difference(self, b: u64, k: u64, a: u64) -> u64
        ensures is_the_residue { result ≡ residue self.value (pos b -ℤ pos (k * a)) }
        ensures below_the_modulus { result < self.value }
    {
        self.difference(self.residue(b), self.residue_product(k, a))
    }

    /// c·k mod M for every k for which the residue of |c|, times k, has the residue p.
    fn with_the_sign(self, c: i64, p: u64) -> u64
        requires a_residue { p < self.value }
        ensures of_all_with_the_residue { (k : ℕ) → p ≡ unsigned_abs c % self.value * k % self.value → result ≡ residue self.value (c *ℤ pos k) }
        ensures below_the_modulus { result < self.value }
    {
        if c < 0 { self.difference(0, p) } else { p }
    }

    /// (s - t) mod M for all s with the residue p and t with the residue q.
    fn difference(self, p: u64, q: u64) -> u64
        requires residues { (p < self.value) × (q < self.value) }
        ensures of_all_with_the_residues { (s t : ℕ) → p ≡ s % self.value → q ≡ t % self.value → result ≡ residue self.value (pos s -ℤ pos t) }
        ensures below_the_modulus { result < self.value }
    {
        if q <= p { p - q } else { p + (self.value - q) }
    }
}
