// What a hit or a miss says.
ghost use Rattle.records.specs.Entries.{point_in};
ghost use Rattle.std.specs.Prelude.{◌≡◌};

use crate::fields::array_at;

/// An index with the value of the curve there.
#[derive(Clone, Copy, PartialEq, Eq, Debug)]
pub struct Point {
    pub index: u32,
    pub value: u64,
}

/// The numbers in the body of a hit or a miss.
impl From<&[u8; 12]> for Point {
    ghost from_gives = { λ body point. point ≡ point_in body.now };

    fn from(body: &[u8; 12]) -> Point {
        Point {
            index: u32::from_le_bytes(*array_at(body, 0)),
            value: u64::from_le_bytes(*array_at(body, 4)),
        }
    }
}

impl Point {
    /// The numbers in the body of a hit or a miss, by a name that tells what is done.
    pub fn read(body: &[u8; 12]) -> Point
        ensures has_the_numbers_of_the_body { result ≡ point_in body.now }
    {
        Point::from(body)
    }
}
