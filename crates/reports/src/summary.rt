ghost use Rattle.std.specs.Prelude.{◌≡◌, ◌+◌, ◌^◌, ◌<◌};
ghost use Rattle.reports.specs.Books.{held, threshold_in};
ghost use Rattle.reports.specs.Listing.{closest_of, nearer, total_of};

use crate::book::Book;
use crate::point::Point;
use std::fmt;

/// The least of some sizes, if there is one, and their sum.
#[derive(Clone, Copy, PartialEq, Eq, Debug)]
pub(crate) struct Summary {
    closest: Option<u64>,
    total: u64,
}

impl Summary {
    /// The least size of a book's points, and the sum of their sizes.
    pub(crate) fn of(book: &Book) -> Summary
        ensures has_the_closest { result.closest ≡ closest_of (threshold_in book.now) (held book.now) }
        ensures has_the_total { result.total ≡ total_of (threshold_in book.now) (held book.now) }
    {
        let threshold = book.threshold();
        let mut sum = Summary {
            closest: None,
            total: 0,
        };
        for hit in book.as_slice() {
            let point = Point {
                threshold,
                hit: *hit,
            };
            sum = sum.with(point.size());
        }
        sum
    }

    /// Takes in one size more.
    fn with(self, size: u64) -> Summary
        requires sum_fits { self.total + size < 2 ^ 64 }
        ensures has_the_lesser_size { result.closest ≡ nearer self.closest size }
        ensures has_the_sum { result.total ≡ self.total + size }
    {
        let closest = self.closest.map_or(size, |least| least.min(size));
        Summary {
            closest: Some(closest),
            total: self.total + size,
        }
    }
}

impl fmt::Display for Summary {
    ghost use Rattle.reports.specs.Listing.{sum_line};
    ghost use Rattle.std.specs.Prelude.{Some};

    ghost output = { λ s. Some (sum_line s.closest s.total) };

    fn fmt<W: fmt::Write>(&self, f: &mut fmt::Formatter<W>) -> fmt::Result {
        match self.closest {
            Some(closest) => writeln!(f, "closest {closest} total {}", self.total),
            None => writeln!(f, "closest - total {}", self.total),
        }
    }
}
