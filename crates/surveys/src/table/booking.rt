// The book of a table, which is an array: what is done to it is given the array and how many of its places are in use.
ghost use Rattle.std.specs.Prelude.{◌≡◌, ◌+◌, ◌-◌, ◌<◌, ◌≤◌, true, false, ◌++◌, length, take, drop, slice_index_or, slice_range, slice_set};
ghost use Rattle.std.specs.List.{list_all};
ghost use Rattle.surveys.specs.Books.{below, is_in_block, put_in, rises, taken_out};
ghost use Rattle.surveys.specs.States.{is_settled};
ghost use Rattle.surveys.specs.Tables.{KeepsTheTerms, book_in, index_at, states_of};
ghost use Rattle.surveys.specs.declared.state.State.TheVariants.{Settled, Waiting};

use crate::state::State;
use crate::table::Table;

/// Puts `run` at the place `at` of the first `used`, what stood there moving up.
fn insert_run(book: &mut [u32], used: usize, at: usize, run: &[u32])
    requires room { (at ≤ used) × (used + length run.now ≤ length book.old) }
    ensures the_run_stands_between { book.new ≡ take at book.old ++ (run.now ++ (slice_range book.old at used ++ drop (used + length run.now) book.old)) }
{
    let n = run.len();
    let end = used + n;
    book[used..end].copy_from_slice(run);
    book[at..end].rotate_right(n);
}

/// Takes the places from `from` to `to` out of the first `used`, those above moving down.
fn remove_range(book: &mut [u32], used: usize, from: usize, to: usize)
    requires within { (from ≤ to) × ((to ≤ used) × (used ≤ length book.old)) }
    ensures the_others_stand_together { take (used - (to - from)) book.new ≡ take from book.old ++ slice_range book.old to used }
{
    book[from..used].rotate_left(to - from);
}

impl Table {
    /// How many indices are booked.
    pub(crate) fn count(&self) -> u32
        ensures is_the_books_length { result ≡ length (book_in self.now) }
        ensures is_the_number_of_places_in_use { result ≡ self.now.booked }
    {
        self.booked
    }

    /// The booked indices, which rise.
    fn book(&self) -> &[u32]
        ensures are_the_booked_indices { result.now ≡ book_in self.now }
    {
        &self.book[..self.booked as usize]
    }

    /// The i-th booked index; none beyond the end.
    pub(crate) fn index(&self, i: u32) -> Option<u32>
        ensures is_the_books_index { result ≡ index_at (book_in self.now) i }
    {
        self.book().get(i as usize).copied()
    }

    /// How many booked indices lie below an index.
    fn count_below(&self, index: u64) -> usize
        ensures are_those_below { result ≡ length (below index (book_in self.now)) }
    {
        self.book()
            .partition_point(|booked| u64::from(*booked) < index)
    }

    /// Enters the close indices of a block that is not settled, and settles it.
    pub(crate) fn enter(&mut self, block: u32, run: &[u32])
        requires there { block < self.old.blocks }
        requires not_settled { is_settled (slice_index_or (states_of self.old) block Waiting) ≡ false }
        requires room { self.old.booked + length run.now ≤ 512 }
        requires the_run_rises { rises run.now ≡ true }
        requires the_run_lies_in_the_block { list_all (is_in_block self.old.block_length block) run.now ≡ true }
        ensures settles_the_block { states_of self.new ≡ slice_set (states_of self.old) block Settled }
        ensures puts_the_run_in { book_in self.new ≡ put_in self.old.block_length block run.now (book_in self.old) }
        ensures keeps_the_terms { KeepsTheTerms self.old self.new }
    {
        let at = self.count_below(block as u64 * self.block_length as u64);
        let mut book = self.book;
        insert_run(&mut book, self.booked as usize, at, run);
        self.book = book;
        self.booked += run.len() as u32;
        self.states[block as usize] = State::Settled;
    }

    /// Takes the indices of a block out of the book, and lets it wait.
    pub(crate) fn take_out(&mut self, block: u32)
        requires there { block < self.old.blocks }
        ensures lets_the_block_wait { states_of self.new ≡ slice_set (states_of self.old) block Waiting }
        ensures takes_its_indices_out { book_in self.new ≡ taken_out self.old.block_length block (book_in self.old) }
        ensures keeps_the_terms { KeepsTheTerms self.old self.new }
    {
        let first = block as u64 * self.block_length as u64;
        let from = self.count_below(first);
        let to = self.count_below(first + self.block_length as u64);
        let mut book = self.book;
        remove_range(&mut book, self.booked as usize, from, to);
        self.book = book;
        self.booked -= (to - from) as u32;
        self.states[block as usize] = State::Waiting;
    }
}
