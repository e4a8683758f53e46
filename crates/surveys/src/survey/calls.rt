// The calls that move the blocks of a survey.
ghost use Rattle.std.specs.Prelude.{◌≡◌, ◌<◌, false, OnErr, slice_index_or};
ghost use Rattle.surveys.specs.Gathered.{Entered, FirstOf, Gathered, returning};
ghost use Rattle.surveys.specs.Keeper.{Refuses, Stepped, ledger_of};
ghost use Rattle.surveys.specs.Ledger.{asked, close_in, give_back, issue, moved_by, recall, settle, work};
ghost use Rattle.surveys.specs.States.{is_settled};
ghost use Rattle.surveys.specs.Tables.{states_of};
ghost use Rattle.surveys.specs.Views.{give_back_answer, issue_answer, recall_answer, settle_answer, view, work_answer};
ghost use Rattle.surveys.specs.declared.state.State.TheVariants.{Waiting};

use crate::act::Act;
use crate::gathering::gather;
use crate::refusal::giving_back::GiveBackRefusal;
use crate::refusal::issuing::IssueRefusal;
use crate::refusal::no_room::NoRoom;
use crate::refusal::recalling::RecallRefusal;
use crate::refusal::settling::SettleRefusal;
use crate::refusal::working::WorkRefusal;
use crate::state::State;
use crate::survey::Survey;
use crate::ticket::Ticket;
use curves::curve::Curve;
use lengths::arithmetic::Arithmetic;
use sheets::assignment::Assignment;
use sheets::blocks::{start_of, stop_of};
use sheets::judge;

/// So many of the first places, where there are as many: the search and the judge lay indices into an array that they are lent.
fn first_of(places: &[u32; 512], count: u32) -> Result<&[u32], NoRoom>
    ensures are_the_first_or_they_are_too_few { FirstOf places.now count result }
{
    places.get(..count as usize).ok_or(NoRoom)
}

impl<C: Curve> Survey<C> {
    /// Issues a block that waits: a ticket for it goes out.
    pub fn issue(&mut self, block: u32) -> Result<Ticket, IssueRefusal>
        ensures does_as_the_ledger_says { Stepped (view C.meaning self.old) (issue block) (issue_answer result) (view C.meaning self.new) }
        ensures refusal_keeps_the_survey { Refuses (issue_answer result) → self.new ≡ self.old }
    {
        let out = self
            .table
            .after(block, Act::Issue)
            .ok_or(IssueRefusal::NotWaiting)?;
        self.table.mark(block, out);
        Ok(Ticket::issue(self.number, block))
    }

    /// The state that an act leads the block of a ticket to; none where the ticket is of another survey number or the act is refused.
    fn after(&self, ticket: &Ticket, act: Act) -> Option<State>
        ensures is_where_the_act_leads { result ≡ moved_by self.now.number (ledger_of self.now.table) act ticket.now }
    {
        if ticket.survey() != self.number {
            return None;
        }
        self.table.after(ticket.block(), act)
    }

    /// Lets the block of a ticket wait again.
    fn wait_again(&mut self, ticket: &Ticket) -> Result<(), GiveBackRefusal>
        ensures does_as_the_ledger_says { Stepped (view C.meaning self.old) (give_back ticket.now) (give_back_answer (returning ticket.now result)) (view C.meaning self.new) }
        ensures refusal_keeps_the_survey { OnErr result (self.new ≡ self.old) }
    {
        let next = self
            .after(ticket, Act::GiveBack)
            .ok_or(GiveBackRefusal::NotOut)?;
        self.table.mark(ticket.block(), next);
        Ok(())
    }

    /// Takes a ticket back unworked: its block waits again.
    pub fn give_back(&mut self, ticket: Ticket) -> Result<(), (GiveBackRefusal, Ticket)>
        ensures does_as_the_ledger_says { Stepped (view C.meaning self.old) (give_back ticket) (give_back_answer result) (view C.meaning self.new) }
        ensures refusal_keeps_the_survey { Refuses (give_back_answer result) → self.new ≡ self.old }
    {
        let outcome = self.wait_again(&ticket);
        ticket.spent_on(outcome)
    }

    /// The block as a sheet is asked for it.
    fn asked(&self, block: u32) -> Assignment
        ensures is_this_block_on_these_terms { result ≡ asked self.now.number (ledger_of self.now.table) block }
    {
        Assignment {
            survey: self.number,
            block,
            block_length: self.table.block_length,
            threshold: self.table.threshold,
        }
    }

    /// Lays the close indices of a block, found along the curve's lines, into the places and answers how many they are, where they are no more
    /// than a book has room for.
    fn close_run<A: Arithmetic>(&self, block: u32, places: &mut [u32; 512]) -> Result<u32, NoRoom>
        ensures has_them_all_or_they_are_too_many { Gathered (close_in (C.meaning self.now.curve) (ledger_of self.now.table) block) places.new result }
    {
        let asked = self.asked(block);
        let from = start_of(&self.curve, asked);
        let to = stop_of(&self.curve, asked);
        gather::<A, C>(&self.curve, asked.threshold, from, to, places)
    }

    /// Enters the close indices of a block that is not settled, where the book has room for them.
    fn enter_run(&mut self, block: u32, run: &[u32]) -> Result<(), NoRoom>
        requires there { block < self.old.table.blocks }
        requires not_settled { is_settled (slice_index_or (states_of self.old.table) block Waiting) ≡ false }
        requires the_close_indices { run.now ≡ close_in (C.meaning self.old.curve) (ledger_of self.old.table) block }
        ensures enters_where_there_is_room { Entered (C.meaning self.old.curve) self.old.table block self.new.table result }
        ensures keeps_curve_and_number { (self.new.curve ≡ self.old.curve) × (self.new.number ≡ self.old.number) }
    {
        if run.len() as u64 + self.table.count() as u64 > 512 {
            return Err(NoRoom);
        }
        self.table.enter(block, run);
        Ok(())
    }

    /// Finds the close indices of the block of a ticket and books them.
    fn book_found<A: Arithmetic>(&mut self, ticket: &Ticket) -> Result<(), WorkRefusal>
        ensures does_as_the_ledger_says { Stepped (view C.meaning self.old) (work ticket.now A.largest) (work_answer (returning ticket.now result)) (view C.meaning self.new) }
        ensures refusal_keeps_the_survey { OnErr result (self.new ≡ self.old) }
    {
        self.after(ticket, Act::Work).ok_or(WorkRefusal::NotOut)?;
        let block = ticket.block();
        let mut places = [0; 512];
        let count = self.close_run::<A>(block, &mut places)?;
        self.enter_run(block, first_of(&places, count)?)?;
        Ok(())
    }

    /// Finds the close indices of a ticket's block and books them.
    pub fn work<A: Arithmetic>(&mut self, ticket: Ticket) -> Result<(), (WorkRefusal, Ticket)>
        ensures does_as_the_ledger_says { Stepped (view C.meaning self.old) (work ticket A.largest) (work_answer result) (view C.meaning self.new) }
        ensures refusal_keeps_the_survey { Refuses (work_answer result) → self.new ≡ self.old }
    {
        let outcome = self.book_found::<A>(&ticket);
        ticket.spent_on(outcome)
    }

    /// Judges a sheet for the block of a ticket and books its hits.
    fn book_hits(&mut self, ticket: &Ticket, sheet: &[u8]) -> Result<(), SettleRefusal>
        ensures does_as_the_ledger_says { Stepped (view C.meaning self.old) (settle ticket.now sheet.now) (settle_answer (returning ticket.now result)) (view C.meaning self.new) }
        ensures refusal_keeps_the_survey { OnErr result (self.new ≡ self.old) }
    {
        self.after(ticket, Act::Settle)
            .ok_or(SettleRefusal::NotOut)?;
        let block = ticket.block();
        let mut places = [0; 512];
        let hits = judge(&self.curve, self.asked(block), sheet, &mut places)?;
        self.enter_run(block, first_of(&places, hits)?)?;
        Ok(())
    }

    /// Judges a sheet for a ticket's block and books its hits.
    pub fn settle(&mut self, ticket: Ticket, sheet: &[u8]) -> Result<(), (SettleRefusal, Ticket)>
        ensures does_as_the_ledger_says { Stepped (view C.meaning self.old) (settle ticket sheet.now) (settle_answer result) (view C.meaning self.new) }
        ensures refusal_keeps_the_survey { Refuses (settle_answer result) → self.new ≡ self.old }
    {
        let outcome = self.book_hits(&ticket, sheet);
        ticket.spent_on(outcome)
    }

    /// Takes a settled block's indices out of the book, and lets it wait again.
    pub fn recall(&mut self, block: u32) -> Result<(), RecallRefusal>
        ensures does_as_the_ledger_says { Stepped (view C.meaning self.old) (recall block) (recall_answer result) (view C.meaning self.new) }
        ensures refusal_keeps_the_survey { Refuses (recall_answer result) → self.new ≡ self.old }
    {
        // An `if`: the state that the block comes to is not needed.
        if self.table.after(block, Act::Recall).is_none() {
            return Err(RecallRefusal::NotSettled);
        }
        self.table.take_out(block);
        Ok(())
    }
}
