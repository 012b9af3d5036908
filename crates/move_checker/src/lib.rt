//! The judge of elementary moves: it does a list of moves on a walk, in place, and says whether they
//! lead to another walk without passing a number of darts.
//!
//! A caller sees a tape as its walk and its peak, and a verdict as the first of `Peak`, `AtMove` and
//! `End` that holds, or `Accepted`. Proved: a step does what the table of moves says, or is refused
//! for the first reason and leaves the tape as it was; and a list is accepted exactly where it leads
//! from walk to walk within its peak. Only the start of a tape takes memory.
//!
//!     let verdict = check_moves(alloc, &faces, &sides, &first, &second, &list)?;
#![tactic(auto)]

mod edits;
pub mod fault;
pub mod judge;
pub mod laws;
mod sides;
pub mod tape;

pub use fault::MoveFault;
pub use judge::{Verdict, check_moves};
pub use tape::{Tape, TapeFault};
