// Why a sheet does not pass.
ghost use Rattle.sheets.specs.Faults.{byte_of, number_of};
ghost use Rattle.std.specs.Prelude.{◌≡◌};

use crate::fault::Fault;

/// Why a sheet does not pass.
#[derive(Clone, Copy, PartialEq, Eq, Debug)]
pub enum SheetRefusal {
    /// It has more than 2^22 bytes; nothing of it is read.
    TooLong,
    /// The first fault, and the byte at which the record that was due there starts, counted from 0.
    Faulty { fault: Fault, byte: u32 },
}

impl SheetRefusal {
    /// The number of the refusal, as it is printed: which number is which refusal's is a rule.
    pub fn number(self) -> u32
        ensures the_number_of_the_case { result ≡ number_of self }
    {
        match self {
            SheetRefusal::TooLong => 19,
            SheetRefusal::Faulty { fault, .. } => fault.number(),
        }
    }

    /// The byte of the record at fault; none where the sheet is too long.
    pub fn byte(self) -> Option<u32>
        ensures the_byte_of_the_case { result ≡ byte_of self }
    {
        match self {
            SheetRefusal::TooLong => None,
            SheetRefusal::Faulty { byte, .. } => Some(byte),
        }
    }
}
