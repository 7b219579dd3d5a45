//! The book: lots come, go and change until the sale, and are then cast into a sheet.
#![tactic(auto)]

pub mod book;
pub mod fault;
pub mod fields;
pub mod lots;
mod slots;
