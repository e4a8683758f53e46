// Making a stretch, where no number is beyond its limit.
ghost use Rattle.search.specs.Stretches.{Made};

use crate::refusal::SearchRefusal;
use crate::stretch::Stretch;
use grid::modulus::Modulus;

impl Stretch {
    /// The stretch of these numbers, or the first refusal that they call for: parameters here, and one struct once none is refused.
    pub fn new(
        modulus: u64,
        slope: u64,
        offset: u64,
        threshold: u64,
        points: u64,
    ) -> Result<Stretch, SearchRefusal>
        ensures made_of_these_numbers_or_refused_in_order { Made modulus slope offset threshold points result }
    {
        let circle = Modulus::new(modulus)?;
        if slope >= modulus || offset >= modulus {
            return Err(SearchRefusal::Coefficient);
        }
        if threshold > modulus {
            return Err(SearchRefusal::Threshold);
        }
        if !(1..=1 << 20).contains(&points) {
            return Err(SearchRefusal::Points);
        }
        Ok(Stretch {
            modulus: circle,
            slope,
            offset,
            threshold,
            points,
        })
    }
}
