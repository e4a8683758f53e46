// What a head says.
ghost use Rattle.records.specs.Entries.{heading_in};
ghost use Rattle.std.specs.Prelude.{◌≡◌};

use crate::fields::array_at;

/// The survey and the block that a sheet is for, with the modulus of the curve and the threshold.
#[derive(Clone, Copy, PartialEq, Eq, Debug)]
pub struct Heading {
    pub survey: u32,
    pub block: u32,
    pub modulus: u64,
    pub threshold: u64,
}

/// The numbers in the body of a head.
impl From<&[u8; 24]> for Heading {
    ghost from_gives = { λ body heading. heading ≡ heading_in body.now };

    fn from(body: &[u8; 24]) -> Heading {
        Heading {
            survey: u32::from_le_bytes(*array_at(body, 0)),
            block: u32::from_le_bytes(*array_at(body, 4)),
            modulus: u64::from_le_bytes(*array_at(body, 8)),
            threshold: u64::from_le_bytes(*array_at(body, 16)),
        }
    }
}

impl Heading {
    /// The numbers in the body of a head, by a name that tells what is done.
    pub fn read(body: &[u8; 24]) -> Heading
        ensures has_the_numbers_of_the_body { result ≡ heading_in body.now }
    {
        Heading::from(body)
    }
}
