// Where the block of an assignment lies on a curve.
ghost use Rattle.sheets.specs.Blocks.{start_of, stop_of};
ghost use Rattle.std.specs.Prelude.{◌≡◌, min};

use crate::assignment::Assignment;
use curves::curve::Curve;

/// The index, or the count where that is less.
fn cut<C: Curve>(curve: &C, index: u64) -> u32
    ensures is_at_most_the_count { result ≡ min index (C.meaning curve.now).count }
{
    index.min(curve.count() as u64) as u32
}

/// The first index of the block.
pub fn start_of<C: Curve>(curve: &C, assignment: Assignment) -> u32
    ensures is_the_first_index { result ≡ start_of (C.meaning curve.now) assignment }
{
    let first = assignment.block as u64 * assignment.block_length as u64;
    cut(curve, first)
}

/// The index behind the last one of the block.
pub fn stop_of<C: Curve>(curve: &C, assignment: Assignment) -> u32
    ensures is_the_index_behind_the_last { result ≡ stop_of (C.meaning curve.now) assignment }
{
    let length = assignment.block_length as u64;
    let behind = assignment.block as u64 * length + length;
    cut(curve, behind)
}
