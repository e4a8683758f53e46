// Making a straight curve, where no number is beyond its limit.
ghost use Rattle.curves.specs.Makers.{StraightMade};

use crate::limits::circle_of;
use crate::refusal::CurveRefusal;
use crate::straight::Straight;

impl Straight {
    /// The straight curve of these numbers, or the first refusal that they call for.
    pub fn new(modulus: u64, count: u64, slope: u64, offset: u64) -> Result<Straight, CurveRefusal>
        ensures made_of_these_numbers_or_refused_in_order { StraightMade modulus count slope offset result }
    {
        let circle = circle_of(modulus, count)?;
        if slope >= modulus || offset >= modulus {
            return Err(CurveRefusal::Coefficient);
        }
        Ok(Straight {
            modulus: circle,
            count: count as u32,
            slope,
            offset,
        })
    }
}
