//! Kinds of key: what ranks the lots of a book.
#![tactic(auto)]

pub mod clip;
pub mod key;
pub mod price;
pub mod row;
#[cfg(test)]
mod tests;
