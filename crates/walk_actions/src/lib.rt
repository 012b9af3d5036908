//! Actions of darts on states, and that moves do not change how a walk acts.
//!
//! It is a matter of definitions, on any mesh. Where going there and back along an edge changes nothing, and neither does going once round
//! a face from one of its corners, a move across that face changes nothing: so what a walk makes of a state depends on its homotopy class
//! alone. Words of walks, sums along walks and products in a group are such actions.
//!
//! docs/ACTIONS.md tells it with drawings, and lists the actions by crate.
#![tactic(auto)]

pub mod laws;
