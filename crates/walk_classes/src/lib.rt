//! Classes of walks: which of many walks of a surface have common ends and are homotopic.
//!
//! `classes` takes any number of walks of an orientable closed surface, of one component or of several, and gives each the number of its
//! class: the least place of a walk with the same ends that is homotopic to it. Each walk is read once, and its word is looked up among
//! those before it, so no two walks are compared by moves; `classes_by` does the same on a surface of which words were asked before.
//! Proved: the numbers are those of the definition, and two are equal exactly where the walks are in one class (`laws`).
//!
//!     let numbers = classes(alloc, mesh, &walks)?;
#![tactic(auto)]

mod fault;
mod key;
pub mod laws;
mod numbering;
mod seen;

pub use fault::ClassFault;
pub use numbering::{classes, classes_by};
