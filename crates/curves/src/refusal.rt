// Why no curve is made.
ghost use Rattle.curves.specs.Refusals.{number_of};
ghost use Rattle.curves.specs.declared.refusal.CurveRefusal.TheVariants.{Modulus};
ghost use Rattle.std.specs.Prelude.{◌≡◌};

use grid::refusal::ModulusRefusal;

/// What the making of a curve refuses, in the order in which it looks.
#[derive(Clone, Copy, PartialEq, Eq, Debug)]
pub enum CurveRefusal {
    /// The number is no modulus.
    Modulus(ModulusRefusal),
    /// The count is 0 or above 2^20.
    Count,
    /// A coefficient, a slope, an offset or a tolerance is beyond its limit.
    Coefficient,
}

impl CurveRefusal {
    /// The number of the refusal, as it is printed: which number is which refusal's is a rule.
    pub fn number(self) -> u32
        ensures the_number_of_the_case { result ≡ number_of self }
    {
        match self {
            CurveRefusal::Modulus(refusal) => refusal.number(),
            CurveRefusal::Count => 2,
            CurveRefusal::Coefficient => 4,
        }
    }
}

// Written by hand for each layer's refusal, and not derived: a clause names what it gives.
impl From<ModulusRefusal> for CurveRefusal {
    ghost from_gives = { λ x y. y ≡ Modulus x };

    fn from(refusal: ModulusRefusal) -> CurveRefusal {
        CurveRefusal::Modulus(refusal)
    }
}
