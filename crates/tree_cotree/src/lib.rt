//! Tree, cotree and leftover edges of a surface (the tree-cotree decomposition), and the rings of a set of edges.
//!
//! A caller sees a split as the kind of each edge, the dart from each vertex to its parent, the face below each edge, the root
//! of the faces, and the genus; a colouring as a split without the ways; and rings as a map from dart to dart. Proved: the
//! split is one of the surface, and of each split: tree and cotree are spanning trees that no edge shares, the leftover edges
//! are even in number, and half that number is the genus (laws). The rings of no edge are as many as the used vertices, those
//! of all edges as many as the faces (ring laws).
//!
//!     let split = split_edges(alloc, &surface)?;
//!     let genus = split.genus();
//!
//! Where no way is asked for, `colour_edges` finds kinds, root face and genus alone, and quicker.
#![tactic(auto)]

pub mod colouring;
mod edge_faces;
pub mod laws;
mod marking;
mod maybe_number;
pub mod ring_laws;
pub mod rings;
mod search;
pub mod split;
mod turning;
mod waiting;

pub use colouring::{Colouring, colour_edges};
pub use rings::Rings;
pub use split::{Kind, Split, split_edges};
