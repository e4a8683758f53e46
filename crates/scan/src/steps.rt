// Steps: how far along a curve one search leads.
use search::evidence::Evidence;

/// What the search of one line tells of the indices from a place on. Not a `Result`: neither case is a failure, and callers
/// name the fields.
#[derive(Clone, Copy, PartialEq, Eq, Debug)]
pub enum Step {
    /// None of the reach is a candidate, with the evidence for the reach.
    Clean {
        reach: u32,
        evidence: Evidence,
    },
    /// The first `after` indices are no candidates and the next one is, with the evidence for those before it; none where there are none.
    Candidate {
        after: u32,
        evidence: Option<Evidence>,
    },
}
