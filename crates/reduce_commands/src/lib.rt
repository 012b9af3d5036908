//! The command `reduce`: the canonical words of a list of turn words.
//!
//! It is a command as those of `commands` are: `reduce` gives a `Reply`, or what stops it, with the clause `Runs` of its check
//! (specs/Reduce.antt, which has the theorem that a reader looks for first).
#![tactic(auto)]

pub mod reduce;
