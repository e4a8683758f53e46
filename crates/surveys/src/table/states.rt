// The states of the blocks of a table.
ghost use Rattle.std.specs.Prelude.{◌≡◌, ◌<◌, ◌≤◌, false, [], replicate, slice_index_or, slice_set};
ghost use Rattle.surveys.specs.Ledger.{led, state_at};
ghost use Rattle.surveys.specs.States.{all_waiting, is_settled};
ghost use Rattle.surveys.specs.Tables.{KeepsTheTerms, book_in, states_of};
ghost use Rattle.surveys.specs.declared.state.State.TheVariants.{Waiting};

use crate::act::{Act, state_after};
use crate::state::State;
use crate::table::Table;

impl Table {
    /// A table with these terms and so many blocks, all waiting, and nothing booked.
    pub(crate) fn new(threshold: u64, block_length: u32, blocks: u32) -> Table
        requires within_limits { (1 ≤ block_length) × (blocks ≤ 256) }
        ensures has_these_terms { (result.threshold ≡ threshold) × (result.block_length ≡ block_length) }
        ensures all_blocks_wait { states_of result ≡ replicate blocks Waiting }
        ensures nothing_is_booked { book_in result ≡ [] }
    {
        Table {
            threshold,
            block_length,
            blocks,
            states: [State::Waiting; 256],
            book: [0; 512],
            booked: 0,
        }
    }

    /// The states of the blocks.
    fn states(&self) -> &[State]
        ensures are_those_of_the_blocks { result.now ≡ states_of self.now }
    {
        &self.states[..self.blocks as usize]
    }

    /// The state of a block; none where there is no such block.
    pub(crate) fn state(&self, block: u32) -> Option<State>
        ensures is_the_state_of_a_block_there_is { result ≡ state_at (states_of self.now) block }
    {
        self.states().get(block as usize).copied()
    }

    /// The state that an act leads a block to; none where it is refused there.
    pub(crate) fn after(&self, block: u32, act: Act) -> Option<State>
        ensures is_where_the_act_leads { result ≡ led act (state_at (states_of self.now) block) }
    {
        state_after(self.state(block)?, act)
    }

    /// Whether every block waits.
    pub(crate) fn all_wait(&self) -> bool
        ensures tells_whether_all_wait { result ≡ all_waiting (states_of self.now) }
    {
        self.states().iter().all(|state| *state == State::Waiting)
    }

    /// Moves a block that is not settled. That it is there and what it is not are said again at each call that moves it, and so is that the
    /// terms stay: they speak of the table as it is then, which no field of a block could.
    pub(crate) fn mark(&mut self, block: u32, state: State)
        requires there { block < self.old.blocks }
        requires not_settled { is_settled (slice_index_or (states_of self.old) block Waiting) ≡ false }
        ensures moves_the_block { states_of self.new ≡ slice_set (states_of self.old) block state }
        ensures keeps_the_book { book_in self.new ≡ book_in self.old }
        ensures keeps_the_terms { KeepsTheTerms self.old self.new }
    {
        self.states[block as usize] = state;
    }
}
