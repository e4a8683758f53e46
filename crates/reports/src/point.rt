ghost use Rattle.curves.specs.Offsets.{value_offset, value_size};
ghost use Rattle.reports.specs.Listing.{letter_of};
ghost use Rattle.std.specs.Prelude.{◌≡◌, ◌^◌, ◌<◌, ◌≤◌};

use crate::hit::Hit;
use std::fmt;

/// A close point as it is listed, with the threshold that its value is below.
#[derive(Clone, Copy, PartialEq, Eq, Debug)]
pub(crate) struct Point {
    pub(crate) threshold: u64,
    pub(crate) hit: Hit,
    ghost numbers_fit: { (threshold ≤ 2 ^ 40) × (hit.value < 2 ^ 40) },
}

impl Point {
    /// How far the value lies above the middle of the values below the threshold. (As a curve's offset; the two are not one exported function,
    /// which may have no `requires`.)
    fn offset(self) -> i64
        ensures is_the_offset { result ≡ value_offset self.threshold self.hit.value }
    {
        self.hit.value as i64 - (self.threshold / 2) as i64
    }

    /// How far the value lies from that middle, on either side.
    pub(crate) fn size(self) -> u64
        ensures is_the_size { result ≡ value_size self.threshold self.hit.value }
        ensures is_small { result < 2 ^ 40 }
    {
        self.offset().unsigned_abs()
    }

    /// G at the edge, E at the middle, H elsewhere.
    fn letter(self) -> &'static str
        ensures is_the_first_letter_that_fits { result.now ≡ letter_of self.threshold self.hit.value }
    {
        let size = self.size();
        if size == self.threshold / 2 {
            "G"
        } else if size == 0 {
            "E"
        } else {
            "H"
        }
    }
}

impl fmt::Display for Point {
    ghost use Rattle.reports.specs.Listing.{point_line};
    ghost use Rattle.std.specs.Prelude.{Some};

    ghost output = { λ p. Some (point_line p.threshold p.hit) };

    fn fmt<W: fmt::Write>(&self, f: &mut fmt::Formatter<W>) -> fmt::Result {
        writeln!(f, "{} {} {}", self.hit.index, self.letter(), self.offset())
    }
}
