//! A mesh whose vertices have other numbers is the same mesh: its walks, moves, homotopy, signs and conditions go over.
//!
//! It is a matter of definitions, on any mesh. So what is asked of a mesh can be answered on one with other numbers, such as that of a
//! component whose own vertices alone are counted.
//!
//! docs/definitions/MESHES.md tells what a renamed mesh is.
#![tactic(auto)]

pub mod laws;
