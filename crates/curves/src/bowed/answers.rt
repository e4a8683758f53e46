// What a bowed curve answers.
ghost use Rattle.curves.specs.Makers.{bowed_curve};
ghost use Rattle.curves.specs.BowedFacts.{bowed_facts};

use crate::bowed::Bowed;
use crate::curve::Curve;
use crate::limits::is_within;
use crate::line::Line;
use grid::modulus::Modulus;

impl Curve for Bowed {
    ghost meaning = { bowed_curve };

    ghost facts = { λ c.
        bowed_facts c.modulus.value c.count c.c0 c.c1 c.c2 c.tolerance
        c.modulus.within.0 c.modulus.within.1 c.count_within.0 c.count_within.1 c.tolerance_below };

    fn modulus(&self) -> Modulus {
        self.modulus
    }

    fn count(&self) -> u32 {
        self.count
    }

    fn value(&self, k: u32) -> Option<u64> {
        (k < self.count).then(|| self.value_at(k))
    }

    fn line(&self, place: u32, length: u32) -> Option<Line> {
        is_within(place, length, self.count).then(|| {
            let reach = self.widest_within(length);
            Line {
                reach,
                slope: self.slope_at(place),
                offset: self.value_at(place),
                error: self.bow_of(reach),
            }
        })
    }
}
