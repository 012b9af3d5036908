//! Commands on surfaces with boundary: `decide-open` and `certify-open`.
//!
//! Each reads a mesh and two walks of it, and is a `Reply` or a `Stop` as the commands of the crate `commands` are; its check is a file of
//! specs/, with the theorem that a reader looks for first. Proved: `decide-open` tells whether the walks are homotopic, `certify-open`
//! prints a list of moves that leads from the first to the second where any does, and no list is longer than `verify` reads.
//!
//!     let reply = decide_open::decide_open(alloc, &mut shelf, mesh, walks)?;
//!     let reply = certify_open::certify_open(alloc, &mut shelf, mesh, walks)?;
#![tactic(auto)]

pub mod certify_open;
pub mod decide_open;
pub mod laws;
mod open_input;
mod open_pair;
mod refusal;

pub use open_input::check_surface;
