// Why setting the terms is refused.
ghost use Rattle.surveys.specs.Refusals.{terms_number};
ghost use Rattle.std.specs.Prelude.{◌≡◌};

/// Why a threshold and a block length are not taken, in the order in which it is looked for.
#[derive(Clone, Copy, PartialEq, Eq, Debug)]
pub enum TermsRefusal {
    /// Some block is not waiting.
    NotAllWaiting,
    /// The threshold is above the modulus.
    Threshold,
    /// The block length is not from 1 to 65,536, or makes more than 256 blocks.
    BlockLength,
}

impl TermsRefusal {
    /// The number of the refusal, as it is printed.
    pub fn number(self) -> u32
        ensures the_number_of_the_case { result ≡ terms_number self }
    {
        match self {
            TermsRefusal::NotAllWaiting => 6,
            TermsRefusal::Threshold => 3,
            TermsRefusal::BlockLength => 5,
        }
    }
}
