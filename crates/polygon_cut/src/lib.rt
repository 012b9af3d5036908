//! The polygon into which a surface is cut along its tree and its leftover edges, and the places of its spokes round the one
//! vertex.
//!
//! A caller sees a polygon as its degree, its sides, the label of each dart and the place of each spoke. Proved: it is cut
//! from the surface and the split; and, as laws, labels ride along the ring of the cut, places turn round the one vertex,
//! and on a sphere walks with common ends are homotopic.
//!
//!     let polygon = cut(alloc, &surface, &split)?;
//!     let label = polygon.label(DartName(0));
#![tactic(auto)]

mod cutting;
pub mod laws;
mod polygon;
mod ring;
mod turning;

pub use cutting::{cut, cut_by_colours};
pub use polygon::{Polygon, PolygonNumbers};
