ghost use Rattle.std.specs.Prelude.{◌≡◌};
ghost use Rattle.reports.specs.declared.refusal.LineRefusal.TheVariants.{Modulus};
ghost use Rattle.reports.specs.Refusals.{refusal_number};

use grid::refusal::ModulusRefusal;

/// Why a line is refused.
#[derive(Clone, Copy, PartialEq, Eq, Debug)]
pub enum LineRefusal {
    /// The line is too long, or the letter of its kind or mode is wrong or missing.
    Letter,
    /// A field is not a number, or there are too few fields or too many.
    Field,
    /// The modulus is outside 2..2^40.
    Modulus(ModulusRefusal),
    /// The count is outside 1..2^20, or above 32 where the values are listed.
    Count,
    /// Rounding to nearest asks for half of a modulus that is odd.
    OddModulus,
    /// The threshold is above the modulus.
    Threshold,
    /// A coefficient is beyond its limit.
    Coefficient,
    /// There are more close points than the book has places.
    BookFull,
}

impl LineRefusal {
    /// The number that is printed for the refusal: which number is which refusal's is a rule.
    pub fn number(self) -> u32
        ensures is_the_number_of_the_refusal { result ≡ refusal_number self }
    {
        match self {
            LineRefusal::Letter => 40,
            LineRefusal::Field => 41,
            LineRefusal::Modulus(refusal) => refusal.number(),
            LineRefusal::Count => 2,
            LineRefusal::OddModulus => 7,
            LineRefusal::Threshold => 3,
            LineRefusal::Coefficient => 4,
            LineRefusal::BookFull => 12,
        }
    }
}

// Written by hand for each layer's refusal, and not derived: a clause names what it gives.
impl From<ModulusRefusal> for LineRefusal {
    ghost from_gives = { λ x y. y ≡ Modulus x };

    fn from(refusal: ModulusRefusal) -> LineRefusal {
        LineRefusal::Modulus(refusal)
    }
}
