use crate::evidence::Evidence;

/// What a search finds. Not a `Result`: neither case is a failure, and callers name the fields.
#[derive(Clone, Copy, PartialEq, Eq, Debug)]
pub enum Answer {
    /// The least close index, its value, and the evidence for that many points; index 0 has no points before it, so none.
    Close {
        index: u64,
        value: u64,
        evidence: Option<Evidence>,
    },
    /// No index is close, with the evidence for all the points.
    Clear {
        evidence: Evidence,
    },
}
