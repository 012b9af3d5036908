//! The double of a surface with boundary is a closed surface, and orientable exactly where the surface is.
//!
//! It is a matter of definitions. An edge inside has its two sides, one on the boundary gets a side of a quad, and between a vertex on the
//! boundary and its mirror stand the quads of two edges: two, because the corners at the vertex make one fan. The same fan leads from a
//! side that starts at the vertex to one that ends there, so signs of the faces are signs of their mirrors and of the quads at them.
//!
//! The sides of the double are told by those of the mesh and by those on its boundary, so its numbers and its genus are told too.
//!
//! docs/OPEN-SURFACES.md tells it with drawings.
#![tactic(auto)]

pub mod laws;
