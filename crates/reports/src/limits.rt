ghost use Rattle.reports.specs.Limits.{coefficients_within, judged, most_points};
ghost use Rattle.std.specs.Prelude.{◌≡◌};

use crate::order::{MOST_LISTED, Mode, Order, Shape};
use crate::refusal::LineRefusal;
use grid::modulus::Modulus;

/// The most points that a curve of the shape may have.
fn most_points(shape: Shape) -> u64
    ensures is_the_limit_of_the_kind { result ≡ most_points shape }
{
    match shape {
        Shape::Listed { .. } => MOST_LISTED as u64,
        _ => 1 << 20,
    }
}

/// Whether every coefficient of the shape keeps its limit.
fn coefficients_within(modulus: u64, shape: Shape) -> bool
    ensures tells_whether_they_are { result ≡ coefficients_within modulus shape }
{
    match shape {
        Shape::Straight { slope, offset } => slope < modulus && offset < modulus,
        Shape::Bowed { c0, c1, c2 } => {
            c0 < modulus && c1.unsigned_abs() < modulus && c2.unsigned_abs() <= 1 << 20
        }
        Shape::Listed { .. } => true,
    }
}

/// Whether an order's numbers keep their limits, or the refusal of the first one that is passed.
pub fn judge(order: Order) -> Result<(), LineRefusal>
    ensures refuses_by_the_first_limit_passed { result ≡ judged order }
{
    Modulus::new(order.modulus)?;
    if !(1..=most_points(order.shape)).contains(&order.count) {
        return Err(LineRefusal::Count);
    }
    if order.mode == Mode::Nearest && order.modulus % 2 == 1 {
        return Err(LineRefusal::OddModulus);
    }
    // The threshold is twice the half width and 1 more.
    if order.half_width > (order.modulus - 1) / 2 {
        return Err(LineRefusal::Threshold);
    }
    if !coefficients_within(order.modulus, order.shape) {
        return Err(LineRefusal::Coefficient);
    }
    Ok(())
}
