// Why recalling a block is refused.
ghost use Rattle.surveys.specs.Refusals.{recall_number};
ghost use Rattle.std.specs.Prelude.{◌≡◌};

/// Why a block is not recalled.
#[derive(Clone, Copy, PartialEq, Eq, Debug)]
pub enum RecallRefusal {
    /// The block is not settled, or there is no such block.
    NotSettled,
}

impl RecallRefusal {
    /// The number of the refusal, as it is printed.
    pub fn number(self) -> u32
        ensures the_number_of_the_case { result ≡ recall_number self }
    {
        match self {
            RecallRefusal::NotSettled => 14,
        }
    }
}
