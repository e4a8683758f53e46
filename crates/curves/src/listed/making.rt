// Judging and making a listed curve.
ghost use Rattle.curves.specs.Makers.{judgement, listed_curve, listed_made, listed_refused};
ghost use Rattle.curves.specs.Kinds.{listed_meaning};
ghost use Rattle.std.specs.Prelude.{◌≡◌, [], ◌∷◌};

use crate::limits::circle_of;
use crate::listed::Listed;
use crate::refusal::CurveRefusal;
use grid::modulus::Modulus;

/// Judges a modulus and a list: accepts them, or gives the first refusal that they call for.
pub fn judge(modulus: u64, entries: &[u64]) -> Result<(), CurveRefusal>
    ensures the_first_refusal_if_any { result ≡ judgement (listed_refused modulus entries.now) }
{
    let _circle = circle_of(modulus, entries.len() as u64)?;
    Ok(())
}

impl<'a> Listed<'a> {
    /// The curve of this modulus and these entries; where they fail the judgement, that of the modulus 2 and the one entry 0.
    pub fn new(modulus: u64, entries: &'a [u64]) -> Listed<'a>
        ensures the_curve_of_the_list_or_of_one_zero { listed_curve result ≡ listed_made modulus entries.now }
    {
        match circle_of(modulus, entries.len() as u64) {
            Ok(circle) => Listed {
                modulus: circle,
                entries,
            },
            Err(_) => one_zero(),
        }
    }
}

/// The curve of the modulus 2 and the one entry 0.
fn one_zero() -> Listed<'static>
    ensures has_one_value_0 { listed_curve result ≡ listed_meaning 2 (0 ∷ []) }
{
    Listed {
        modulus: Modulus::new(2).unwrap(),
        entries: &[0],
    }
}
