// The judge, record by record.
ghost use Rattle.std.specs.Prelude.{◌≡◌, ◌+◌, ◌^◌, ◌<◌, ◌≤◌, length, slice_set};
ghost use Rattle.records.specs.Reading.{says};
ghost use Rattle.sheets.specs.Blocks.{stop_of};
ghost use Rattle.sheets.specs.Inner.{Opened, Told, Turned, judged_behind, turn_of};
ghost use Rattle.sheets.specs.Laws.{AFaultIsTheLeastWhereAllBeforeIsInOrder, CleanRecordsPassExactlyWhereNoneIsClose, HitsAreTheCloseIndices, PassesExactlyWhenTheRulesAreKept};
ghost use Rattle.sheets.specs.Tests.{points_of};
ghost use Rattle.sheets.specs.Verdict.{counted, lent, verdict};
ghost use Rattle.sheets.specs.declared.refusal.SheetRefusal.TheVariants.{Faulty};

use crate::assignment::Assignment;
use crate::blocks::{start_of, stop_of};
use crate::entries::points_of;
use crate::fault::Fault;
use crate::judging::judge::Judge;
use crate::progress::Progress;
use crate::refusal::SheetRefusal;
use crate::turn::Turn;
use curves::curve::Curve;
use records::reading::record_at;
use records::record::Record;

pub(crate) mod judge;

/// The refusal for a fault at a byte.
fn faulty(fault: Fault, at: usize) -> SheetRefusal
    requires a_small_byte { at ≤ 2 ^ 22 }
    ensures is_that_fault_there { result ≡ Faulty fault at }
{
    SheetRefusal::Faulty {
        fault,
        byte: at as u32,
    }
}

/// What a record without a fault brings, where an index is next and the record ends at a byte.
fn turn_of(record: Record<'_>, next: u32, end: usize) -> Turn
    requires room { next + points_of (says «record») < 2 ^ 32 }
    ensures is_the_turn_of_the_entry { result ≡ turn_of (says «record».entry) next end }
{
    match record {
        Record::End(_) => Turn::Over,
        Record::Hit(_) => Turn::Hit { end },
        Record::Head(_) | Record::Clean(_) | Record::Miss(_) => Turn::On {
            end,
            next: next + points_of(record),
        },
    }
}

/// Lays a hit into the lent places, where there is room for it. The judge has no heap, so that a caller lends it memory of a fixed size.
#[tactic(auto, using(std::proofs::lemmas::List::set_past))]
fn lay(places: &mut [u32; 512], count: u32, index: u32)
    ensures laid_at_its_place { places.new ≡ slice_set places.old count index }
{
    if count < 512 {
        places[count as usize] = index;
    }
}

impl<C: Curve> Judge<'_, C> {
    /// Reads the head, and answers the byte behind it or says what is wrong.
    fn open(&self) -> Result<usize, SheetRefusal>
        ensures leaves_the_judgement_to_the_rest { Opened (C.meaning self.now.curve.now) self.now.assignment self.now.sheet.now result }
    {
        let due = record_at(self.sheet, 0);
        let (record, end) = due.map_err(|fault| faulty(Fault::Record(fault), 0))?;
        if self.opens(record) {
            Ok(end)
        } else {
            Err(faulty(Fault::Head, 0))
        }
    }

    /// Judges the record that is due at a byte behind the head.
    fn judge_one(&self, progress: Progress) -> Result<Turn, SheetRefusal>
        requires within { progress.at ≤ length self.now.sheet.now }
        requires not_beyond { progress.next ≤ self.now.stop }
        ensures leaves_the_judgement_to_the_rest { Turned (C.meaning self.now.curve.now) self.now.assignment self.now.sheet.now progress.at progress.next progress.records result }
    {
        let at = progress.at;
        let due = record_at(self.sheet, at);
        let (record, end) = due.map_err(|fault| faulty(Fault::Record(fault), at))?;
        match self.fault_of(progress, self.sheet.len() - end, record) {
            Some(fault) => Err(faulty(fault, at)),
            None => Ok(turn_of(record, progress.next, end)),
        }
    }

    /// Judges the records from the byte behind the head on, and lays the hits into the places.
    fn judge_rest(&self, from: usize, places: &mut [u32; 512]) -> Result<u32, SheetRefusal>
        requires within { (1 ≤ from) × (from ≤ length self.now.sheet.now) }
        ensures tells_the_judgement { Told (judged_behind (C.meaning self.now.curve.now) self.now.assignment self.now.sheet.now from) places.old places.new result }
    {
        let mut progress = Progress {
            at: from,
            next: start_of(self.curve, self.assignment),
            records: 0,
        };
        let mut count = 0;
        // No iterator over the records: where the next one is due, and with which index, is known once this one is judged.
        loop {
            let (end, next) = match self.judge_one(progress)? {
                Turn::Over => return Ok(count),
                Turn::Hit { end } => {
                    lay(places, count, progress.next);
                    count += 1;
                    (end, progress.next + 1)
                }
                Turn::On { end, next } => (end, next),
            };
            progress = Progress {
                at: end,
                next,
                records: progress.records + 1,
            };
        }
    }
}

/// Judges a sheet; the hits stay in a copy of the lent places until it passes.
fn judge_whole<C: Curve>(
    curve: &C,
    assignment: Assignment,
    sheet: &[u8],
    hits: &mut [u32; 512],
) -> Result<u32, SheetRefusal>
    ensures is_the_verdict { result ≡ counted (verdict (C.meaning curve.now) assignment sheet.now) }
    ensures lays_the_hits_or_keeps_the_places { hits.new ≡ lent (verdict (C.meaning curve.now) assignment sheet.now) hits.old }
{
    if sheet.len() > 1 << 22 {
        return Err(SheetRefusal::TooLong);
    }
    let judge = Judge {
        curve,
        assignment,
        stop: stop_of(curve, assignment),
        sheet,
    };
    let from = judge.open()?;
    let mut found = *hits;
    let count = judge.judge_rest(from, &mut found)?;
    *hits = found;
    Ok(count)
}

/// The same, with the laws that make a verdict worth having.
pub(crate) fn judge_lawfully<C: Curve>(
    curve: &C,
    assignment: Assignment,
    sheet: &[u8],
    hits: &mut [u32; 512],
) -> Result<u32, SheetRefusal>
    ensures is_the_verdict { result ≡ counted (verdict (C.meaning curve.now) assignment sheet.now) }
    ensures lays_the_hits_or_keeps_the_places { hits.new ≡ lent (verdict (C.meaning curve.now) assignment sheet.now) hits.old }
    ensures hits_are_the_close_indices_of_the_block { HitsAreTheCloseIndices (C.meaning curve.now) assignment }
    ensures clean_records_pass_exactly_where_none_is_close { CleanRecordsPassExactlyWhereNoneIsClose (C.meaning curve.now) }
    ensures passes_exactly_when_the_rules_are_kept { PassesExactlyWhenTheRulesAreKept (C.meaning curve.now) assignment }
    ensures a_fault_is_the_least_where_all_before_is_in_order { AFaultIsTheLeastWhereAllBeforeIsInOrder (C.meaning curve.now) assignment }
{
    judge_whole(curve, assignment, sheet, hits)
}
