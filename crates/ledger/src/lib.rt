//! The ledger: whole lists of calls on a new book, and what they leave and answer.
#![tactic(auto)]

pub mod call;
pub mod play;
