//! The forms of the words over the degrees 4 and 0.
//!
//! Over the degree 4 the quads tile the plane, and a walk is told by where it ends there. Over the degree 0
//! all walks with the same ends are homotopic. docs/TURN-WORDS.md tells how these stand beside turn words.
//!
//! A caller sees `Flat` as a point of the plane, and `Point` as nothing. Proved: both are forms, so a spoke put
//! twice in a row changes nothing, and the two sides of a quad lead to one state; they take no memory.
//!
//!     let mut flat = Flat::new();
//!     flat.act(&wheel, Spoke(2), &mut Silent)?;
#![tactic(auto)]

mod flat;
pub mod laws;
mod point;

pub use flat::Flat;
pub use point::Point;
