#![tactic(auto)]
// The records of a sheet: how they stand in its bytes, and what they say.
// An exported call only calls an inner one with its clauses, so that a wrong one is refused here and not in a proof.
pub mod clean;
pub mod fault;
mod fields;
pub mod heading;
pub mod point;
pub mod reading;
pub mod record;
