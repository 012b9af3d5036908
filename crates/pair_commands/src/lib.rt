//! The command `decide`: for each pair of walks in a file, whether its walks are homotopic.
//!
//! It is a command as those of `commands` are: `decide` gives a `Reply`, or what stops it, with the clause `Runs` of its check
//! (specs/Decide.antt, which has the theorem that a reader looks for first). Each component of a surface is labelled once for
//! all pairs in it, whatever order they come in.
#![tactic(auto)]

pub mod decide;
mod deciding;
mod pair_input;
