//! Reading a sheet: whether the bits of a tape are one, and who leads a range, from the bits alone.
#![tactic(auto)]

pub mod check;
mod climb;
pub mod pair;
mod path;
mod place;
