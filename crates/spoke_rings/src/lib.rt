//! Closed walks, and when one can be moved onto the other with no point held fast (in the field: free homotopy).
//!
//! A closed walk is a closed list of spokes here, which may start at any of its spokes that lead from the vertex.
//! Proved: each one is brought to a cyclically canonical list by steps, each an elementary homotopy or a conjugation; and
//! each one has a least rotation, which tells it but for where it starts. (That this takes linear time is meant; no clause says so.)
//!
//!     let first = cyclic_form(alloc, &wheel, &[3, 4])?;
//!     let same = least_rotation(first) == least_rotation(second);
//!
//! docs/definitions/LOOPS.md tells what a closed list, its turns and its steps are.
#![tactic(auto)]

mod form;
mod ring;
mod rotation;

pub use form::cyclic_form;
pub use rotation::least_rotation;
