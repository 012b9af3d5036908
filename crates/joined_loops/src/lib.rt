//! Closed walks that are not freely homotopic: what two walks share that are.
//!
//! Proved: freely homotopic closed walks have one cyclically canonical list of spokes, but for where it starts, and over the degree 4
//! they have one word. So two closed walks of which these differ are not freely homotopic. It is said of definitions alone: of closed
//! lists of spokes that a third one joins, and of every mesh that has a good labelling.
//!
//! docs/definitions/LOOPS.md tells what joined lists are, and why no list has two cyclic forms.
#![tactic(auto)]

pub mod laws;
