// What a clean record says.
ghost use Rattle.records.specs.Entries.{clean_in};
ghost use Rattle.std.specs.Prelude.{◌≡◌};

use crate::fields::array_at;
use search::evidence::Evidence;

/// A stretch of `points` indices from `from` on, none of which is close, with the five numbers that vouch for it.
#[derive(Clone, Copy, PartialEq, Eq, Debug)]
pub struct CleanStretch {
    pub from: u32,
    pub points: u32,
    pub evidence: Evidence,
}

/// The numbers in the body of a clean record.
impl From<&[u8; 36]> for CleanStretch {
    ghost from_gives = { λ body stretch. stretch ≡ clean_in body.now };

    fn from(body: &[u8; 36]) -> CleanStretch {
        let evidence = Evidence {
            u: u64::from(u32::from_le_bytes(*array_at(body, 8))),
            v: u64::from(u32::from_le_bytes(*array_at(body, 12))),
            r: u64::from(u32::from_le_bytes(*array_at(body, 16))),
            x: u64::from_le_bytes(*array_at(body, 20)),
            y: u64::from_le_bytes(*array_at(body, 28)),
        };
        CleanStretch {
            from: u32::from_le_bytes(*array_at(body, 0)),
            points: u32::from_le_bytes(*array_at(body, 4)),
            evidence,
        }
    }
}

impl CleanStretch {
    /// The numbers in the body of a clean record, by a name that tells what is done.
    pub fn read(body: &[u8; 36]) -> CleanStretch
        ensures has_the_numbers_of_the_body { result ≡ clean_in body.now }
    {
        CleanStretch::from(body)
    }
}
