//! Commands of the hall programs: texts parted into lines, and lines read as commands.
#![tactic(auto)]

pub mod command;
pub mod line;
pub mod number;
#[cfg(test)]
mod tests;
