//! Examples at the edges of tapes, punches and packing.
#![tactic(auto)]

#[cfg(test)]
mod punches;
#[cfg(test)]
mod tapes;
#[cfg(test)]
mod texts;
