// Why a search is refused.
ghost use Rattle.search.specs.Refusals.{number_of};
ghost use Rattle.search.specs.declared.refusal.SearchRefusal.TheVariants.{Modulus};
ghost use Rattle.std.specs.Prelude.{◌≡◌};

use grid::refusal::ModulusRefusal;

/// What a search refuses, in the order in which it looks: the modulus, the slope and the offset, the threshold, the number of points.
#[derive(Clone, Copy, PartialEq, Eq, Debug)]
pub enum SearchRefusal {
    Modulus(ModulusRefusal),
    Coefficient,
    Threshold,
    Points,
}

impl SearchRefusal {
    /// The number of the refusal, as it is printed: which number is which refusal's is a rule, so one match says it for all.
    pub fn number(self) -> u32
        ensures the_number_of_the_case { result ≡ number_of self }
    {
        match self {
            SearchRefusal::Modulus(refusal) => refusal.number(),
            SearchRefusal::Coefficient => 4,
            SearchRefusal::Threshold => 3,
            SearchRefusal::Points => 2,
        }
    }
}

// Written by hand for each layer's refusal, and not derived: a clause names what it gives.
impl From<ModulusRefusal> for SearchRefusal {
    ghost from_gives = { λ x y. y ≡ Modulus x };

    fn from(refusal: ModulusRefusal) -> SearchRefusal {
        SearchRefusal::Modulus(refusal)
    }
}
