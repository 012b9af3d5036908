//! What the program `mesh_cover` does: the orientation cover of a closed surface, written as a mesh, and the lifts of two walks to it.
//!
//! Proved: where the file spells a closed manifold, orientable or not, what is written is the text of its cover, and of two walks
//! the text of their lifts, which reads back, or `different` where these end at two vertices. What is no closed manifold is refused as
//! `surface` refuses it, and walks as `certify` refuses them.
//!
//!     let status = write_cover(alloc, &mut shelf, &mut out, "klein.off");
//!     let status = write_lifts(alloc, &mut shelf, &mut out, "klein.off", "klein.walks");
#![tactic(auto)]

pub mod laws;
mod lifting;
mod reading;
mod walk_writing;
mod writing;

pub use writing::{write_cover, write_lifts};
