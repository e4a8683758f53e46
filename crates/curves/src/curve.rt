// Curves: what is asked of one, and what each one shows of its answers.
ghost use Rattle.curves.specs.Meaning.{Facts, Meaning, line_of, value_of};
ghost use Rattle.std.specs.Prelude.{◌≡◌};

use crate::line::Line;
use grid::modulus::Modulus;

/// A curve over the grid. It is asked its modulus M, its count N, a value and a line; a question changes nothing.
/// Its meaning is what it answers, and code above knows of it only the facts.
pub trait Curve {
    ghost meaning: { Self → Meaning };

    /// The modulus M.
    fn modulus(&self) -> Modulus
        ensures is_the_modulus { result.value ≡ (meaning self.now).modulus };

    /// The count N.
    fn count(&self) -> u32
        ensures is_the_count { result ≡ (meaning self.now).count };

    /// The value at the index k; none where k is N or more.
    fn value(&self, k: u32) -> Option<u64>
        ensures is_the_value_below_the_count { result ≡ value_of (meaning self.now) k };

    /// The line from the place on, for that many points; none where the length is 0 or the stretch passes N.
    fn line(&self, place: u32, length: u32) -> Option<Line>
        ensures is_the_line_of_a_stretch_within { result ≡ line_of (meaning self.now) place length };

    ghost facts: { (c : Self) → Facts (meaning c) };
}
