#![tactic(auto)]
// The judge of sheets, which only calls an inner one with its clauses, so that a wrong one is refused here and not in a proof. A sheet is what a hired house sends back for a block of a survey: its hits, and records that call the rest clean.
ghost use Rattle.sheets.specs.Laws.{AFaultIsTheLeastWhereAllBeforeIsInOrder, CleanRecordsPassExactlyWhereNoneIsClose, HitsAreTheCloseIndices, PassesExactlyWhenTheRulesAreKept};
ghost use Rattle.sheets.specs.Verdict.{counted, lent, verdict};
ghost use Rattle.std.specs.Prelude.{◌≡◌};

use crate::assignment::Assignment;
use crate::refusal::SheetRefusal;
use curves::curve::Curve;

pub mod assignment;
pub mod blocks;
mod entries;
pub mod fault;
mod judging;
mod progress;
pub mod refusal;
mod turn;

/// Judges the bytes of a sheet for a block of a curve. Where it passes, answers how many hits it has and lays the first 512 of them into
/// the lent places; where it does not, answers why and at which byte, and the places keep what they held. The judge takes no memory: a caller
/// lends it, and the count says how much of it is used. What it is given are four parameters, since callers have them apart; within they are one.
pub fn judge<C: Curve>(
    curve: &C,
    assignment: Assignment,
    sheet: &[u8],
    hits: &mut [u32; 512],
) -> Result<u32, SheetRefusal>
    ensures is_the_verdict { result ≡ counted (verdict (C.meaning curve.now) assignment sheet.now) }
    ensures lays_the_hits_or_keeps_the_places { hits.new ≡ lent (verdict (C.meaning curve.now) assignment sheet.now) hits.old }
    ensures hits_are_the_close_indices_of_the_block { HitsAreTheCloseIndices (C.meaning curve.now) assignment }
    ensures clean_records_pass_exactly_where_none_is_close { CleanRecordsPassExactlyWhereNoneIsClose (C.meaning curve.now) }
    ensures passes_exactly_when_the_rules_are_kept { PassesExactlyWhenTheRulesAreKept (C.meaning curve.now) assignment }
    ensures a_fault_is_the_least_where_all_before_is_in_order { AFaultIsTheLeastWhereAllBeforeIsInOrder (C.meaning curve.now) assignment }
{
    judging::judge_lawfully(curve, assignment, sheet, hits)
}
