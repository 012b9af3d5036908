//! Whether a face list is a closed manifold, and if not, which condition fails first, with its least element; and the components
//! that it has.
//!
//! A caller checks a mesh by `check_closed`, whose fault is that there is no face, an edge without two sides, or a pinched vertex.
//! `Parts` then cuts it into its components, each a connected closed surface. Proved: the check succeeds exactly on closed
//! manifolds, and names a fault exactly where it is the first, but for want of memory; a mesh has one first fault at most; and, as
//! laws, what holds of walks, moves and signs of a component holds of them in the whole mesh.
//!
//!     let sides = Sides::build(alloc, &faces)?;
//!     check_closed(alloc, &faces, &sides)?;
//!     let parts = Parts::build(alloc, &faces, &sides)?;
#![tactic(auto)]

mod check;
pub mod fault;
pub mod laws;
pub mod measuring;
mod numbering;
pub mod part_laws;
pub mod parts;

pub use check::check_closed;
pub use fault::SurfaceFault;
pub use measuring::measure;
pub use parts::Parts;
