// Why giving a ticket back is refused.
ghost use Rattle.surveys.specs.Refusals.{give_back_number};
ghost use Rattle.std.specs.Prelude.{◌≡◌};

/// Why a ticket is not taken back.
#[derive(Clone, Copy, PartialEq, Eq, Debug)]
pub enum GiveBackRefusal {
    /// The ticket is of another survey number, or its block is not out here.
    NotOut,
}

impl GiveBackRefusal {
    /// The number of the refusal, as it is printed.
    pub fn number(self) -> u32
        ensures the_number_of_the_case { result ≡ give_back_number self }
    {
        match self {
            GiveBackRefusal::NotOut => 11,
        }
    }
}
