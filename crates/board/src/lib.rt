//! The board: it holds no price and no key, only a tape, and shows who leads each page.
#![tactic(auto)]

pub mod board;
pub mod call;
pub mod fault;
pub mod play;
