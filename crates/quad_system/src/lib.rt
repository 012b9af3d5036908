//! The labelling that a cut of a surface gives, and what it decides.
//!
//! A caller who has a polygon makes a labelling of it by `from_polygon`, or a good one with no second look at the mesh; by
//! `from_spent_polygon` the labels stay where they are.
//! Proved, as laws: it is good and full, and under it walks with common ends are homotopic exactly where, over four spokes,
//! their quad paths lead to one point, and over more, their canonical words are one. For a good labelling of another origin
//! that holds in one direction alone (`labellings`, whose names are found here too). A good labelling of one component of a mesh is
//! widened to all of it by `widen`, which is that of `widening`.
//!
//!     let labelling = Labelling::from_polygon(alloc, &surface, &polygon)?;
//!     let good = GoodLabelling::from_spent_polygon(alloc, &surface, polygon)?;
#![tactic(auto)]

mod from_polygon;
pub mod laws;

pub use from_polygon::FromPolygon;
pub use labellings::{Denial, GoodLabelling, LabelFault, Labelling, check_labelling};
pub use widening::widen;
