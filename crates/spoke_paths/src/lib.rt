//! Paths of spokes, and how they are made short without a canonical word.
//!
//! A path is a list of spokes that starts at the one vertex: the first spoke leads to the middle of the polygon, the
//! second back to the vertex, and so on. A path step takes out two equal neighbours, or takes two neighbours the
//! other way round a quad.
//!
//! Proved, over each degree from 4 on: `reduce_spokes` gives steps that lead to a path whose turn word is reduced;
//! path steps keep the state that a form is led to; and a reduced path that leads to the state of the empty word
//! has no spokes. So the steps leave nothing of a path that has no word.
//!
//!     let steps = reduce_spokes(alloc, &wheel, &[0, 1, 2, 3])?;
#![tactic(auto)]

pub mod laws;
mod reduce;
mod step;
mod take;
mod turn;

pub use reduce::reduce_spokes;
pub use step::PathStep;
pub use take::take_step;
