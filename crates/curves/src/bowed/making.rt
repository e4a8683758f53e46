// Making a bowed curve, where no number is beyond its limit.
ghost use Rattle.curves.specs.Makers.{BowedMade};

use crate::bowed::Bowed;
use crate::limits::circle_of;
use crate::refusal::CurveRefusal;

impl Bowed {
    /// The bowed curve of these numbers, or the first refusal that they call for.
    pub fn new(
        modulus: u64,
        count: u64,
        c0: u64,
        c1: i64,
        c2: i64,
        tolerance: u64,
    ) -> Result<Bowed, CurveRefusal>
        ensures made_of_these_numbers_or_refused_in_order { BowedMade modulus count c0 c1 c2 tolerance result }
    {
        let circle = circle_of(modulus, count)?;
        if c0 >= modulus
            || c1.unsigned_abs() >= modulus
            || c2.unsigned_abs() > 1 << 20
            || tolerance >= modulus
        {
            return Err(CurveRefusal::Coefficient);
        }
        Ok(Bowed {
            modulus: circle,
            count: count as u32,
            c0,
            c1,
            c2,
            tolerance,
        })
    }
}
