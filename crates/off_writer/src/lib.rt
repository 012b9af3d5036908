//! Writing meshes as texts in the format OFF.
//!
//! A face list has no points, so each vertex is written as the point `0 0 0`. Proved: what is written is the text of the mesh, and
//! what that text means is the mesh.
//!
//!     write_off(&faces, &mut sink)?;
#![tactic(auto)]

mod writing;

pub use writing::write_off;
