//! A whole sale: lists of calls on two books and on a board, and prices rebuilt, in one call that carries the whole promise.
#![tactic(auto)]

pub mod rehearsal;
