// The search of a line's reach in its window.
ghost use Rattle.std.specs.Prelude.{◌≡◌, ◌^◌, ◌<◌, ◌≤◌};
ghost use Rattle.scan.specs.Steps.{IndexBelow, answer_along, told};

use crate::steps::Step;
use curves::line::Line;
use curves::window::Window;
use grid::modulus::Modulus;
use lengths::arithmetic::Arithmetic;
use search::answer::Answer;
use search::search;

/// The first candidate among the points of the reach, or none, as the search answers it.
pub(crate) fn search_reach<A: Arithmetic>(modulus: Modulus, line: Line, window: Window) -> Answer
    requires slope_and_offset_below { (line.slope < modulus.value) × (window.offset < modulus.value) }
    requires threshold_within { window.threshold ≤ modulus.value }
    requires some_points { (1 ≤ line.reach) × (line.reach ≤ 2 ^ 20) }
    ensures is_the_answer_for_the_reach { result ≡ answer_along modulus.value line window }
    ensures index_below_the_reach { IndexBelow line.reach result }
{
    search::<A>(
        modulus.get(),
        line.slope,
        window.offset,
        window.threshold,
        u64::from(line.reach),
    )
    .unwrap()
}

/// The answer for a reach, as a step.
pub(crate) fn tell(reach: u32, answer: Answer) -> Step
    requires index_below_the_reach { IndexBelow reach answer }
    ensures is_the_answer_told { result ≡ told reach answer }
{
    match answer {
        Answer::Clear { evidence } => Step::Clean { reach, evidence },
        Answer::Close {
            index,
            evidence,
            ..
        } => Step::Candidate {
            after: index as u32,
            evidence,
        },
    }
}
