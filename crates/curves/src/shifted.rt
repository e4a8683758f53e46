// Shifted curves: a layer over any curve.
ghost use Rattle.std.specs.Prelude.{◌≡◌, ◌<◌};
ghost use Rattle.curves.specs.Kinds.{gained, shifted_meaning};
ghost use Rattle.curves.specs.ShiftedFacts.{shifted_facts};

use crate::curve::Curve;
use crate::line::Line;
use grid::modulus::Modulus;

/// The curve below with every value and every line's offset raised by t, mod M.
#[derive(Drop)]
pub struct Shifted<C: Curve> {
    below: C,
    t: u64,
}

impl<C: Curve> Shifted<C> {
    /// The curve below, shifted by t.
    pub fn new(below: C, t: u64) -> Shifted<C>
        ensures over_this_curve { result.below ≡ below }
        ensures by_this_number { result.t ≡ t }
    {
        Shifted { below, t }
    }

    /// (value + t) mod M, in whole numbers.
    fn raised(&self, value: u64) -> u64
        requires a_residue { value < (C.meaning self.now.below).modulus }
        ensures gains_the_shift { result ≡ gained (C.meaning self.now.below) self.now.t value }
    {
        let modulus = self.below.modulus();
        modulus.residue(value + modulus.residue(self.t))
    }
}

impl<C: Curve> Curve for Shifted<C> {
    ghost meaning = { λ c. shifted_meaning (C.Curve.meaning c.below) c.t };

    ghost facts = { λ c. shifted_facts (C.Curve.meaning c.below) c.t (C.Curve.facts c.below) };

    fn modulus(&self) -> Modulus {
        self.below.modulus()
    }

    fn count(&self) -> u32 {
        self.below.count()
    }

    fn value(&self, k: u32) -> Option<u64> {
        let value = self.below.value(k)?;
        Some(self.raised(value))
    }

    fn line(&self, place: u32, length: u32) -> Option<Line> {
        let line = self.below.line(place, length)?;
        Some(Line {
            offset: self.raised(line.offset),
            ..line
        })
    }
}
