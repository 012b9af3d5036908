//! What the program `mesh_double` does: the double of a surface with boundary, read from a file and written as a mesh.
//!
//! Proved: where the file spells a surface with boundary, what is written is the text of its double, a closed surface; any other file is
//! refused as `decide-open` refuses it, but that the surface need not be orientable; and a double that is larger than a mesh may be is
//! refused too.
//!
//!     let status = write_double(alloc, &mut shelf, &mut out, "annulus.off");
#![tactic(auto)]

pub mod laws;
mod reading;
mod writing;

pub use writing::{give_mesh, refuse_words, write_double};
