// Putting a survey together, and its terms.
ghost use Rattle.std.specs.Prelude.{◌≡◌, ◌+◌, ◌-◌, ◌/◌, ◌^◌, ◌≤◌};
ghost use Rattle.curves.specs.Meaning.{Meaning};
ghost use Rattle.surveys.specs.Keeper.{Fresh, Refuses, Stepped};
ghost use Rattle.surveys.specs.Ledger.{length_fits, terms};
ghost use Rattle.surveys.specs.Views.{terms_answer, view};

use crate::refusal::terms::TermsRefusal;
use crate::survey::Survey;
use crate::table::Table;
use curves::curve::Curve;

/// How many blocks of a length there are. Not by `div_ceil`: that it rounds as the ledger does was not found.
fn block_count(count: u32, length: u32) -> u64
    requires some_length { 1 ≤ length }
    ensures rounded_up { result ≡ (count + (length - 1)) / length }
{
    (u64::from(count) + (u64::from(length) - 1)) / u64::from(length)
}

/// Whether a block length is within its limits and makes at most 256 blocks.
fn fits_length(count: u32, length: u32) -> bool
    ensures is_the_test_of_the_length { (m : Meaning) → m.count ≡ count → result ≡ length_fits m length }
{
    (1..=65536).contains(&length) && block_count(count, length) <= 256
}

impl<C: Curve> Survey<C> {
    /// A survey of a curve, with the threshold 0, blocks of 4,096 indices that all wait, and nothing booked.
    pub fn new(curve: C, number: u32) -> Survey<C>
        ensures of_this_curve_and_number { (result.curve ≡ curve) × (result.number ≡ number) }
        ensures starts_fresh { Fresh (view C.meaning result) }
    {
        let blocks = block_count(curve.count(), 4096) as u32;
        Survey {
            curve,
            number,
            table: Table::new(0, 4096, blocks),
        }
    }

    /// Sets the threshold and the block length, where every block waits.
    pub fn set_terms(&mut self, threshold: u64, block_length: u32) -> Result<(), TermsRefusal>
        ensures does_as_the_ledger_says { Stepped (view C.meaning self.old) (terms threshold block_length) (terms_answer result) (view C.meaning self.new) }
        ensures refusal_keeps_the_survey { Refuses (terms_answer result) → self.new ≡ self.old }
    {
        if !self.table.all_wait() {
            return Err(TermsRefusal::NotAllWaiting);
        }
        if threshold > self.curve.modulus().get() {
            return Err(TermsRefusal::Threshold);
        }
        if !fits_length(self.curve.count(), block_length) {
            return Err(TermsRefusal::BlockLength);
        }
        let blocks = block_count(self.curve.count(), block_length) as u32;
        self.table = Table::new(threshold, block_length, blocks);
        Ok(())
    }
}
