//! Homotopy of walks on compact surfaces: in any number of pieces, closed or with boundary, orientable or not.
//!
//! `CompactSurface::of` makes such a surface of a mesh, or says why it is none. Where some edge has one side, the double answers for the
//! mesh, and where that has no coherent signs, its cover, on which the lifts of walks are asked about. Proved: a mesh becomes a surface
//! exactly where it is a compact one, whose double and cover are no larger than a mesh may be, and else the first condition that fails is
//! named; and each answer is exact for the mesh that was given. So are the classes of walks, which are those of their lifts, and, where
//! there are coherent signs, what is said of closed walks. The time is meant to be linear in the mesh, and for each pair in its walks; no
//! clause says so. `AnsweredSurface` is such a surface before anything is asked, with the orientable
//! closed surface that answers for it, and `SignedCompact` an orientable one, or its double with it.
//!
//!     let mut surface = CompactSurface::of(alloc, faces)?;
//!     let answer = surface.answer_if_pair(&first, &second)?;
//!     let numbers = surface.classes(&walks)?;
#![tactic(auto)]

mod answered;
mod check;
mod covered;
mod covered_mesh;
mod fault;
pub mod laws;
mod manifold;
mod signed;
mod surface;

pub use answered::{AnsweredManifold, AnsweredSurface};
pub use covered::Covered;
pub use covered_mesh::{CoveredMesh, TabledMesh};
pub use fault::CompactFault;
pub use manifold::ClosedManifold;
pub use signed::{Bounded, SignedCompact, SignedFault};
pub use surface::CompactSurface;
