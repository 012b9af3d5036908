//! Orientable closed surfaces in memory, in one piece or in several, before anything is asked of them.
//!
//! `SignedMesh::of` makes a surface of a mesh, or says why it is none. `Component::of_walk` makes a connected surface of its own of the
//! component of a walk, and `numbers_of` and `genera_of` count. Proved: a mesh becomes a surface exactly where it is an orientable closed
//! one, and else the first condition that fails is named, or an odd chain is found.
//!
//!     let surface = SignedMesh::of(alloc, faces)?;
//!     let component = Component::of_walk(alloc, surface, &walk)?;
#![tactic(auto)]

pub mod component;
pub mod measuring;
pub mod signed_mesh;

pub use component::{Component, connected};
pub use measuring::{genera_of, numbers_of};
pub use signed_mesh::{NoSurface, SignedMesh};
