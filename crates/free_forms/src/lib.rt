//! Homotopy of walks on surfaces with boundary.
//!
//! A caller checks that a face list is an open surface, and makes an `OpenMesh` of it: each face gets a parent, one of its sides, so that
//! crossing parents ends at the boundary. A walk is normal where it has no spur and no dart along a parent edge. Proved: the check names
//! the first condition that fails, but for want of memory; each walk leads to exactly one normal walk; two walks are homotopic exactly
//! where their normal walks are equal; and a list of moves is made exactly where one leads, with its exact peak, and never a longer one
//! than a certificate may be: up to 16,384 sides and 512 darts no list has more than 8,388,608 moves or passes a longer walk.
//!
//!     check_open(alloc, &faces, &sides)?;
//!     let mesh = OpenMesh::build(alloc, faces, sides)?;
//!     let same = same_class(alloc, &mesh, &first, &second)?;
//!     let list = lift_open(alloc, &mesh, &first, &second)?;
#![tactic(auto)]

mod check;
pub mod deciding;
pub mod fault;
pub mod laws;
pub mod lifting;
pub mod limits;
pub mod open_mesh;
mod reduction;
mod search;

pub use check::check_open;
pub use deciding::{normal, same_class};
pub use fault::OpenFault;
pub use lifting::lift_open;
pub use limits::{MOST_OPEN_DARTS, MOST_OPEN_SIDES, MOST_OPEN_STEPS};
pub use open_mesh::OpenMesh;
