//! Numbers that show on the double of a mesh whether walks of the mesh are homologous, folded to numbers that show it on the mesh itself.
//!
//! A surface with boundary is asked for homology by way of its double, which is closed. Proved: what shows something on the double shows,
//! folded, the same on the mesh. A chain gives each face its number less that of its mirror. A cocycle keeps its numbers on the edges of
//! the mesh, where it is one too, as the faces of the mesh are faces of the double.
//!
//!     let closed = double(alloc, &faces, &sides)?;
//!     let numbers = fold(shown_on_the_double, &faces);
#![tactic(auto)]

mod folding;

pub use folding::fold;
