//! The questions of the program, for C and for what calls C: of meshes and walks that lie in the caller's arrays.
//!
//! `homotopy.h` beside this crate's `src` is its header. Each function tests everything that it is handed, and tells what is wrong by a
//! code; what a caller must ensure is that pointers and lengths are true, aligned and not overlapping, and that a handle is what these
//! functions made of it. Nothing is kept between calls but the mesh that a handle holds. Proved: each outcome is the one that the mesh and
//! the walks of the arrays have, by the definitions of `homotopy_arrays`.
#![tactic(auto)]

mod certify;
mod classes;
pub mod codes;
pub mod component_laws;
mod components;
mod decide;
mod decide_any;
pub mod handle;
mod homologies;
mod homologies_any;
pub mod laws;
mod loops;
mod loose;
mod mesh;
pub mod outcome;
mod room;
pub mod surface;
mod verify;
mod verify_homology;
