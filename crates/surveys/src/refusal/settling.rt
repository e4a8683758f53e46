// Why settling a block is refused.
ghost use Rattle.surveys.specs.Refusals.{settle_byte, settle_number};
ghost use Rattle.surveys.specs.declared.refusal.settling.SettleRefusal.TheVariants.{BookFull, Sheet};
ghost use Rattle.std.specs.Prelude.{◌≡◌};

use crate::refusal::no_room::NoRoom;
use sheets::refusal::SheetRefusal;

/// Why a block is not settled, in the order in which it is looked for.
#[derive(Clone, Copy, PartialEq, Eq, Debug)]
pub enum SettleRefusal {
    /// The ticket is of another survey number, or its block is not out here.
    NotOut,
    /// The sheet does not pass.
    Sheet(SheetRefusal),
    /// The book has no room for the block's close indices.
    BookFull,
}

impl SettleRefusal {
    /// The number of the refusal, as it is printed.
    pub fn number(self) -> u32
        ensures the_number_of_the_case { result ≡ settle_number self }
    {
        match self {
            SettleRefusal::NotOut => 11,
            SettleRefusal::Sheet(refusal) => refusal.number(),
            SettleRefusal::BookFull => 12,
        }
    }

    /// The byte of the record at fault, where a record is.
    pub fn byte(self) -> Option<u32>
        ensures the_byte_of_the_case { result ≡ settle_byte self }
    {
        match self {
            SettleRefusal::NotOut | SettleRefusal::BookFull => None,
            SettleRefusal::Sheet(refusal) => refusal.byte(),
        }
    }
}

impl From<NoRoom> for SettleRefusal {
    ghost from_gives = { λ none refusal. refusal ≡ BookFull };

    fn from(_none: NoRoom) -> SettleRefusal {
        SettleRefusal::BookFull
    }
}

impl From<SheetRefusal> for SettleRefusal {
    ghost from_gives = { λ sheet refusal. refusal ≡ Sheet sheet };

    fn from(sheet: SheetRefusal) -> SettleRefusal {
        SettleRefusal::Sheet(sheet)
    }
}
