// The limits that all curves share.
ghost use Rattle.curves.specs.Refusals.{Within};
ghost use Rattle.std.specs.Prelude.{◌≡◌, ◌+◌, ◌&&◌, nat_le};

use crate::refusal::CurveRefusal;
use grid::modulus::Modulus;

/// The modulus, where it and the count are within their limits.
pub(crate) fn circle_of(modulus: u64, count: u64) -> Result<Modulus, CurveRefusal>
    ensures made_within_the_limits_or_refused_in_order { Within modulus count result }
{
    let circle = Modulus::new(modulus)?;
    if !(1..=1 << 20).contains(&count) {
        return Err(CurveRefusal::Count);
    }
    Ok(circle)
}

/// Whether a stretch from the place on has points and does not pass the count.
pub(crate) fn is_within(place: u32, length: u32, count: u32) -> bool
    ensures has_points_and_stays_below_the_count { result ≡ nat_le 1 length && nat_le (place + length) count }
{
    length >= 1 && place as u64 + length as u64 <= count as u64
}
