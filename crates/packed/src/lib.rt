//! Bits packed into bytes, eight a byte, the highest bit of each byte first.
#![tactic(auto)]

mod bytes;
pub mod punch;
pub mod tape;
#[cfg(test)]
mod tests;
