// Surveys.
use crate::table::Table;
use curves::curve::Curve;

mod calls;
mod readers;
mod terms;

/// A survey cuts the indices of a curve into blocks. A ticket goes out with each block, and comes back when the block is settled, worked or
/// given back; the close indices of the settled blocks are in its book.
#[derive(Drop)]
pub struct Survey<C: Curve> {
    curve: C,
    number: u32,
    table: Table,
}
