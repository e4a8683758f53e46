#![tactic(auto)]
// The search for the first point of a line that comes too near the grid, and the evidence that none does.
// An exported call only calls an inner one with its clauses, so that a wrong one is refused here and not in a proof.
ghost use Rattle.search.specs.Answers.{searched};
ghost use Rattle.std.specs.Prelude.{◌≡◌};

use crate::answer::Answer;
use crate::refusal::SearchRefusal;
use crate::stretch::Stretch;
use lengths::arithmetic::Arithmetic;

pub mod answer;
mod batches;
mod claim;
pub mod evidence;
mod place;
pub mod refusal;
pub mod stretch;
pub mod vouching;

/// Looks for the least k below `points` with (offset − k·slope) mod modulus below the threshold, in any arithmetic. Callers have the numbers in
/// structs of their own, so they are parameters here and a stretch within.
pub fn search<A: Arithmetic>(
    modulus: u64,
    slope: u64,
    offset: u64,
    threshold: u64,
    points: u64,
) -> Result<Answer, SearchRefusal>
    ensures the_answer_or_the_first_refusal { result ≡ searched modulus slope offset threshold points }
{
    let stretch = Stretch::new(modulus, slope, offset, threshold, points)?;
    Ok(stretch.search::<A>())
}
