ghost use Rattle.std.specs.Prelude.{◌≡◌, ◌^◌, ◌<◌, ◌≤◌, length, IfOk, Ok, OnOk};
ghost use Rattle.reports.specs.Books.{held, held_by, threshold_in};
ghost use Rattle.reports.specs.Close.{booked, found, hits_of, meaning_of, shift_of};
ghost use Rattle.reports.specs.Limits.{judged, threshold_of};
ghost use Rattle.std.specs.List.{AllByRecursion};

use crate::book::Book;
use crate::hit::Hit;
use crate::limits::judge;
use crate::order::{Mode, Order, Shape};
use crate::refusal::LineRefusal;
use curves::bowed::Bowed;
use curves::curve::Curve;
use curves::listed::Listed;
use curves::shifted::Shifted;
use curves::straight::Straight;
use scan::close_indices::CloseIndices;

/// Enters the close points of a curve, one after the other.
fn gather<C: Curve>(curve: &C, threshold: u64) -> Result<Book, LineRefusal>
    requires threshold_fits { threshold ≤ 2 ^ 40 }
    ensures holds_the_close_points { held_by result ≡ booked (hits_of (C.meaning curve.now) threshold) }
    ensures has_the_threshold { IfOk result (λ b. threshold_in b ≡ threshold) }
{
    let mut book = Book::new(threshold);
    for index in CloseIndices::<u64, C>::new(curve, threshold, 0, curve.count()) {
        let value = curve.value(index).unwrap();
        book.push(Hit { index, value })?;
    }
    Ok(book)
}

/// What every value of an order's curve gains.
fn shift(order: Order) -> u64
    requires numbers_fit { (order.modulus ≤ 2 ^ 40) × (order.half_width ≤ 2 ^ 40) }
    ensures is_the_shift { result ≡ shift_of order }
{
    match order.mode {
        Mode::Directed => order.half_width,
        Mode::Nearest => order.half_width + order.modulus / 2,
    }
}

/// The close points of the curve of an order that keeps its limits. The arms end alike, but each has a curve of another type.
fn gather_shape(order: Order) -> Result<Book, LineRefusal>
    requires within_limits { judged order ≡ Ok tt }
    ensures holds_the_close_points { held_by result ≡ booked (hits_of (meaning_of order) (threshold_of order)) }
    ensures has_the_threshold { IfOk result (λ b. threshold_in b ≡ threshold_of order) }
{
    let threshold = order.threshold();
    let shift = shift(order);
    match order.shape {
        Shape::Straight { slope, offset } => {
            let curve = Straight::new(order.modulus, order.count, slope, offset).unwrap();
            gather(&Shifted::new(curve, shift), threshold)
        }
        Shape::Bowed { c0, c1, c2 } => {
            let curve = Bowed::new(
                order.modulus,
                order.count,
                c0,
                c1,
                c2,
                order.half_width,
            ).unwrap();
            gather(&Shifted::new(curve, shift), threshold)
        }
        Shape::Listed { values } => {
            let curve = Listed::new(order.modulus, &values[0..order.count as usize]);
            gather(&Shifted::new(curve, shift), threshold)
        }
    }
}

/// The close points of an order's curve, rising.
pub fn close_points(order: Order) -> Result<Book, LineRefusal>
    ensures holds_the_close_points { held_by result ≡ found order }
    ensures has_the_threshold { IfOk result (λ b. threshold_in b ≡ threshold_of order) }
    ensures threshold_fits { OnOk result (threshold_of order ≤ 2 ^ 40) }
    ensures few_points { IfOk result (λ b. length (held b) ≤ 512) }
    ensures values_fit { IfOk result (λ b. AllByRecursion (λ h. h.value < 2 ^ 40) (held b)) }
{
    judge(order)?;
    gather_shape(order)
}
