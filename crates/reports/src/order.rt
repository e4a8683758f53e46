ghost use Rattle.std.specs.Prelude.{◌≡◌, ◌+◌, ◌*◌, ◌^◌, ◌<◌};
ghost use Rattle.reports.specs.Limits.{threshold_of};
ghost use Rattle.reports.specs.Lines.{kind_of, letter, mode_of};

use crate::refusal::LineRefusal;

/// The byte of a field that holds just one.
fn lone_letter(field: &[u8]) -> Option<char>
    ensures is_the_letter { result ≡ letter field.now }
{
    match field {
        [byte] => Some(*byte as char),
        _ => None,
    }
}

/// How the function whose curve is surveyed is rounded.
#[derive(Clone, Copy, PartialEq, Eq, Debug)]
pub enum Mode {
    Directed,
    Nearest,
}

impl TryFrom<&[u8]> for Mode {
    type Error = LineRefusal;

    ghost try_from_gives = { λ field mode. mode ≡ mode_of field.now };

    fn try_from(field: &[u8]) -> Result<Mode, LineRefusal> {
        match lone_letter(field) {
            Some('D') => Ok(Mode::Directed),
            Some('N') => Ok(Mode::Nearest),
            _ => Err(LineRefusal::Letter),
        }
    }
}

/// What a line's first letter says of its curve.
#[derive(Clone, Copy, PartialEq, Eq, Debug)]
pub enum Kind {
    Straight,
    Bowed,
    Listed,
}

impl TryFrom<&[u8]> for Kind {
    type Error = LineRefusal;

    ghost try_from_gives = { λ field kind. kind ≡ kind_of field.now };

    fn try_from(field: &[u8]) -> Result<Kind, LineRefusal> {
        match lone_letter(field) {
            Some('S') => Ok(Kind::Straight),
            Some('B') => Ok(Kind::Bowed),
            Some('L') => Ok(Kind::Listed),
            _ => Err(LineRefusal::Letter),
        }
    }
}

/// The most values that a line may list.
pub const MOST_LISTED: usize = 32;

/// The numbers that give a curve its values.
#[derive(Clone, Copy, PartialEq, Eq, Debug)]
pub enum Shape {
    /// (offset − k·slope) mod modulus at each index k.
    Straight { slope: u64, offset: u64 },
    /// (c0 + c1·k + c2·k(k − 1)/2) mod modulus at each index k.
    Bowed { c0: u64, c1: i64, c2: i64 },
    /// Value k mod modulus at each index k below the count, which stands in the order: a line may give any count, and no more values than
    /// these are kept of it.
    Listed { values: [u64; MOST_LISTED] },
}

/// What a line asks for, as it stands there.
#[derive(Clone, Copy, PartialEq, Eq, Debug)]
pub struct Order {
    pub mode: Mode,
    pub modulus: u64,
    pub count: u64,
    pub half_width: u64,
    pub shape: Shape,
}

impl Order {
    /// A value below this is close.
    pub(crate) fn threshold(self) -> u64
        requires half_width_fits { self.half_width < 2 ^ 40 }
        ensures is_the_threshold { result ≡ threshold_of self }
    {
        2 * self.half_width + 1
    }
}
