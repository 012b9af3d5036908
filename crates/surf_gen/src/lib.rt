//! Large meshes to try things on, and walks on them: chains of square tori.
//!
//! A caller gives the number of tori and the points in a row of each, and gets the text of the mesh in the format OFF, and
//! pairs of walks on it. Proved: text and walks are those of the drawing, byte for byte and vertex for vertex; and the
//! vertices are numbered without a gap in the order in which they are listed.
//!
//!     let text = chain_of_tori(alloc, 2, 5)?;
//!     let pair = trial_pair(alloc, 2, 5, TrialPair::Loops)?;
#![tactic(auto)]

mod chain;
pub mod laws;
mod limits;
mod line;
pub mod points;
mod text;
mod walks;

pub use limits::{LEAST_GRID, MOST_GENUS, MOST_GRID};
pub use text::chain_of_tori;
pub use walks::{TrialPair, WalkPair, trial_pair};
