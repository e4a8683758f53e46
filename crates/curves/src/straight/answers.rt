// What a straight curve answers.
ghost use Rattle.curves.specs.Kinds.{straight_value};
ghost use Rattle.curves.specs.Makers.{straight_curve};
ghost use Rattle.curves.specs.StraightFacts.{straight_facts};
ghost use Rattle.std.specs.Prelude.{◌≡◌};

use crate::curve::Curve;
use crate::limits::is_within;
use crate::line::Line;
use crate::straight::Straight;
use grid::modulus::Modulus;

impl Straight {
    /// (offset − k·slope) mod M.
    fn value_at(self, k: u32) -> u64
        ensures is_the_value { result ≡ straight_value self.modulus.value self.slope self.offset k }
    {
        self.modulus
            .residue_difference(self.offset, k as u64, self.slope)
    }
}

impl Curve for Straight {
    ghost meaning = { straight_curve };

    ghost facts = { λ c.
        straight_facts c.modulus.value c.count c.slope c.offset
        c.modulus.within.0 c.modulus.within.1 c.count_within.0 c.count_within.1 c.slope_below };

    fn modulus(&self) -> Modulus {
        self.modulus
    }

    fn count(&self) -> u32 {
        self.count
    }

    fn value(&self, k: u32) -> Option<u64> {
        (k < self.count).then(|| self.value_at(k))
    }

    fn line(&self, place: u32, length: u32) -> Option<Line> {
        is_within(place, length, self.count).then(|| Line {
            reach: length,
            slope: self.slope,
            offset: self.value_at(place),
            error: 0,
        })
    }
}
