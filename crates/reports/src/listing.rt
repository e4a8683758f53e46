ghost use Rattle.std.specs.Prelude.{◌≡◌};

use crate::book::Book;
use crate::point::Point;
use crate::summary::Summary;
use std::fmt;

/// What is printed of a book, for the line with that number. Nothing compares it, nor what it lends.
#[derive(Clone, Copy)]
pub(crate) struct Listing<'a> {
    number: u32,
    book: &'a Book,
}

impl<'a> Listing<'a> {
    pub(crate) fn new(number: u32, book: &'a Book) -> Listing<'a>
        ensures has_the_number { result.number ≡ number }
        ensures has_the_book { result.book.now ≡ book.now }
    {
        Listing { number, book }
    }
}

impl<'a> fmt::Display for Listing<'a> {
    ghost use Rattle.reports.specs.Books.{held, threshold_in};
    ghost use Rattle.reports.specs.Listing.{listing_of};
    ghost use Rattle.std.specs.Prelude.{Some};

    ghost output = { λ l. Some (listing_of l.number (threshold_in l.book.now) (held l.book.now)) };

    fn fmt<W: fmt::Write>(&self, f: &mut fmt::Formatter<W>) -> fmt::Result {
        let hits = self.book.as_slice();
        writeln!(f, "curve {} hits {}", self.number, hits.len())?;
        for hit in hits {
            let point = Point {
                threshold: self.book.threshold(),
                hit: *hit,
            };
            write!(f, "{point}")?;
        }
        write!(f, "{}", Summary::of(self.book))
    }
}
