// Lines: what a curve answers of a stretch of its points.

/// A straight piece that stands for a stretch of a curve from some place s on: for j below the reach, the value at s + j lies
/// within the error of (offset − j·slope) mod M.
#[derive(Clone, Copy, PartialEq, Eq, Debug)]
pub struct Line {
    pub reach: u32,
    pub slope: u64,
    pub offset: u64,
    pub error: u64,
}
