#![tactic(auto)]
// Surveys: their blocks, tickets and book, and what their keeper can say of them.
mod act;
mod gathering;
pub mod refusal;
pub mod state;
pub mod survey;
mod table;
pub mod ticket;
