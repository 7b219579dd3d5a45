//! The hall: lines of commands in, reply lines out, for any kind of key.
#![tactic(auto)]

pub mod answer;
pub mod hall;
pub mod program;
pub mod session;
#[cfg(test)]
mod tests;
