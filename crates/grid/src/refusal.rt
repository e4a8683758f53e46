// Why no modulus is made.
ghost use Rattle.std.specs.Prelude.{◌≡◌};
ghost use Rattle.grid.specs.Refusals.{number_of};

/// Why a number is no modulus.
#[derive(Clone, Copy, PartialEq, Eq, Debug)]
pub enum ModulusRefusal {
    /// The number is below 2 or above 2^40.
    OutsideLimits,
}

impl ModulusRefusal {
    /// The number that a refused line prints: which number is which refusal's is a rule, so a match says it.
    pub fn number(self) -> u32
        ensures is_the_refusals_number { result ≡ number_of self }
    {
        match self {
            ModulusRefusal::OutsideLimits => 1,
        }
    }
}
