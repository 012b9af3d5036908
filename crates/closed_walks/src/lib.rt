//! Closed walks of a mesh, and when one can be moved onto the other with no vertex held fast.
//!
//! In the field this is free homotopy: beside the moves on walks a closed walk may change the vertex that it starts at. It is
//! a matter of definitions, on any mesh; no wheel and no surface is in it.
//!
//! docs/definitions/LOOPS.md tells what a closed walk and a change of its start are.
#![tactic(auto)]

pub mod laws;
