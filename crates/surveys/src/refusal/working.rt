// Why working a block is refused.
ghost use Rattle.surveys.specs.Refusals.{work_number};
ghost use Rattle.surveys.specs.declared.refusal.working.WorkRefusal.TheVariants.{BookFull};
ghost use Rattle.std.specs.Prelude.{◌≡◌};

use crate::refusal::no_room::NoRoom;

/// Why a block is not worked, in the order in which it is looked for.
#[derive(Clone, Copy, PartialEq, Eq, Debug)]
pub enum WorkRefusal {
    /// The ticket is of another survey number, or its block is not out here.
    NotOut,
    /// The book has no room for the block's close indices.
    BookFull,
}

impl WorkRefusal {
    /// The number of the refusal, as it is printed.
    pub fn number(self) -> u32
        ensures the_number_of_the_case { result ≡ work_number self }
    {
        match self {
            WorkRefusal::NotOut => 11,
            WorkRefusal::BookFull => 12,
        }
    }
}

impl From<NoRoom> for WorkRefusal {
    ghost from_gives = { λ none refusal. refusal ≡ BookFull };

    fn from(_none: NoRoom) -> WorkRefusal {
        WorkRefusal::BookFull
    }
}
