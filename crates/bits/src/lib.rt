//! Lists of bits: tapes, which are read, and punches, which are written.
#![tactic(auto)]

pub mod byte_punch;
pub mod iter;
pub mod punch;
pub mod tape;
#[cfg(test)]
mod tests;
pub mod views;
