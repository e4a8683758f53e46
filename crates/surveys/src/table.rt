// What a survey keeps beside its curve. Plain arrays of a fixed size, made by
// repetition, stand beside the numbers of their places in use: that is the form that a survey's memory has to have.
ghost use Rattle.std.specs.Prelude.{◌≡◌, ◌≤◌, true, take};
ghost use Rattle.surveys.specs.Books.{lies_settled, rises};

use crate::state::State;

mod booking;
mod states;

/// The terms (threshold and block length), the states of the blocks in the first `blocks` places, and the booked indices in the first
/// `booked` places. The book rises, and each of its indices lies in a settled block.
// Neither compared nor printed.
#[derive(Clone, Copy)]
pub(crate) struct Table {
    pub(crate) threshold: u64,
    pub(crate) block_length: u32,
    pub(crate) blocks: u32,
    pub(crate) states: [State; 256],
    pub(crate) book: [u32; 512],
    pub(crate) booked: u32,
    ghost some_length: { 1 ≤ block_length },
    ghost few_blocks: { blocks ≤ 256 },
    ghost few_booked: { booked ≤ 512 },
    ghost book_rises: { rises (take booked book) ≡ true },
    ghost booked_lie_settled: { lies_settled block_length (take blocks states) (take booked book) ≡ true },
}
