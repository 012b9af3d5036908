//! The objects of the product: polygon meshes as face lists, walks along their edges, and the
//! elementary moves that change a walk.
//!
//! A caller sees a mesh as a vertex count and the list of its faces, one that is built as such a list
//! and the corners of a face that is not yet in it, the table of its edges as a list of edges with
//! their sides, a walk as the list of its vertices, and a list of moves with its peak.
//! Proved: the table is that of the mesh, and answers what the mesh says; a mesh has one table; a move
//! puts one part of a walk in another's place, and its inverse leads back; being joined by moves is a
//! congruence; and of the walks that spur moves join, one at most has no spur.
//!
//!     let mut faces = Faces::new(alloc, 4);
//!     faces.push_slice(&[VertexName(0), VertexName(1), VertexName(2)])?;
//!     let sides = Sides::build(alloc, &faces)?;
//!     let edge = sides.between(VertexName(2), VertexName(0));
#![tactic(auto)]

mod blocks;
mod building;
pub mod chains;
pub mod counting;
pub mod decisions;
mod edge_list;
pub mod edges;
mod ends;
pub mod faces;
pub mod homotopy_laws;
pub mod laws;
pub mod limits;
mod linking;
mod listed_parts;
pub mod moves;
pub mod names;
pub mod numbers;
mod parts;
pub mod signs;
pub mod walks;

pub use chains::{ChainLink, OddChain};
pub use decisions::Answer;
pub use edges::{Side, Sides};
pub use faces::{Faces, FacesBuilder};
pub use limits::{MOST_PEAK, MOST_SIDES, MOST_VERTICES};
pub use moves::{Move, MoveList};
pub use names::{DartName, EdgeName, FaceName, Spoke, VertexName};
pub use numbers::SurfaceNumbers;
pub use signs::Signs;
pub use walks::Walk;
