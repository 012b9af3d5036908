//! The command `loops`: whether two closed walks of a surface are freely homotopic.
//!
//! It is a command as those of `commands` are: `loops` gives a `Reply`, or what stops it, with the clause `Runs` of its check
//! (specs/Loops.antt, which has the theorem that a reader looks for first).
#![tactic(auto)]

mod input;
pub mod loops;

pub use input::read_loops;
