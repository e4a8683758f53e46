// What a survey tells of itself.
ghost use Rattle.surveys.specs.Keeper.{Statement};
ghost use Rattle.surveys.specs.Ledger.{state_at};
ghost use Rattle.surveys.specs.Tables.{book_in, index_at, states_of};
ghost use Rattle.std.specs.Prelude.{◌≡◌, length};

use crate::state::State;
use crate::survey::Survey;
use curves::curve::Curve;

impl<C: Curve> Survey<C> {
    /// The state of a block; none where there is no such block.
    pub fn state(&self, block: u32) -> Option<State>
        ensures is_the_blocks_state { result ≡ state_at (states_of self.now.table) block }
    {
        self.table.state(block)
    }

    /// The i-th index of the book, counted from 0; none beyond its end.
    pub fn booked_index(&self, i: u32) -> Option<u32>
        ensures is_the_books_index { result ≡ index_at (book_in self.now.table) i }
    {
        self.table.index(i)
    }

    /// How many indices are booked.
    pub fn booked(&self) -> u32
        ensures is_the_books_length { result ≡ length (book_in self.now.table) }
    {
        self.table.count()
    }

    /// The threshold under which a value counts as close.
    pub fn threshold(&self) -> u64
        ensures is_the_threshold { result ≡ self.now.table.threshold }
    {
        self.table.threshold
    }

    /// How many indices a block has.
    pub fn block_length(&self) -> u32
        ensures is_the_block_length { result ≡ self.now.table.block_length }
    {
        self.table.block_length
    }

    /// The survey's number.
    pub fn number(&self) -> u32
        ensures is_the_number { result ≡ self.now.number }
    {
        self.number
    }

    /// The curve that is surveyed.
    pub fn curve(&self) -> &C
        ensures is_the_curve { result.now ≡ self.now.curve }
    {
        &self.curve
    }

    /// Says what the keeper of a survey over this curve and with this number can say of every history of its calls, at every moment.
    pub fn keeper_statement(&self)
        ensures every_answer_is_the_ledgers_and_the_book_is_exact { Statement (C.meaning self.now.curve) self.now.number }
    {}
}
