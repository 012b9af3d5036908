//! Public calls that the program does not reach, with ample memory.
//!
//! They stand here and not beside the code, since a test is proved together with its whole crate. Tests of the commands stand in
//! the program, above the library of commands.
#![tactic(auto)]

#[cfg(test)]
mod certificates;
#[cfg(test)]
mod compact;
#[cfg(test)]
mod decisions;
#[cfg(test)]
mod homologies;
#[cfg(test)]
mod lifts;
#[cfg(test)]
mod models;
#[cfg(test)]
mod pool_edits;
#[cfg(test)]
mod pools;
#[cfg(test)]
mod rings;
#[cfg(test)]
mod segment_edits;
#[cfg(test)]
mod splits;
#[cfg(test)]
mod tapes;
#[cfg(test)]
mod words;
