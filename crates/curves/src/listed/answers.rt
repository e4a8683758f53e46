// What a listed curve answers.
ghost use Rattle.curves.specs.Makers.{listed_curve};
ghost use Rattle.curves.specs.ListedFacts.{listed_facts};

use crate::curve::Curve;
use crate::limits::is_within;
use crate::line::Line;
use crate::listed::Listed;
use grid::modulus::Modulus;

impl<'a> Curve for Listed<'a> {
    ghost meaning = { listed_curve };

    ghost facts = { λ c.
        listed_facts c.modulus.value c.entries.now
        c.modulus.within.0 c.modulus.within.1 c.count_within.0 c.count_within.1 };

    fn modulus(&self) -> Modulus {
        self.modulus
    }

    fn count(&self) -> u32 {
        self.entries.len() as u32
    }

    fn value(&self, k: u32) -> Option<u64> {
        let entry = self.entries.get(k as usize)?;
        Some(self.modulus.residue(*entry))
    }

    fn line(&self, place: u32, length: u32) -> Option<Line> {
        if !is_within(place, length, self.count()) {
            return None;
        }
        let offset = self.value(place)?;
        Some(Line {
            reach: 1,
            slope: 0,
            offset,
            error: 0,
        })
    }
}
