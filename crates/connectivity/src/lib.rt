//! Which corners at a vertex are joined by steps across edges, and which vertices are joined by walks, on a mesh whose edges have
//! at most two sides, closed or with boundary.
//!
//! A caller sees two calls, each of which names the least element that hangs apart, or says that there is none. Below both lie
//! `Classes`: numbers in classes that are joined two by two, and `corners_across`: which corners of two sides of one edge face one another.
//!
//!     let sides = Sides::build(alloc, &faces)?;
//!     let pinch = pinched_vertex(alloc, &faces, &sides)?;
//!     let apart = vertices_apart(alloc, &faces, &sides)?;
#![tactic(auto)]

pub mod classes;
pub mod corners;
pub mod vertices;

pub use classes::Classes;
pub use corners::{corners_across, pinched_vertex};
pub use vertices::{components, vertices_apart};
