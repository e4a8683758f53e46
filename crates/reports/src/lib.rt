#![tactic(auto)]
//! From the bytes of one line of input to the bytes that are printed for it.
pub mod book;
mod fields;
pub mod hit;
mod kept;
pub mod limits;
mod listing;
mod numbers;
pub mod order;
pub mod output;
mod point;
pub mod points;
pub mod reader;
pub mod refusal;
pub mod samples;
mod summary;
