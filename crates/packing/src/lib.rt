//! Lettered sheets packed into bytes: reading the letters, packing them, reading them back, telling it.
#![tactic(auto)]

pub mod compare;
pub mod letters;
pub mod pack;
pub mod report;
