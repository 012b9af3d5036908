//! Whether two walks of a surface are homologous, with a proof of either answer.
//!
//! Proved: the answer is a chain, exactly where the walks are homologous, and else a cocycle that separates them; and no
//! number passes what the walks have of darts.
//!
//!     let split = split_edges(alloc, &surface)?;
//!     let proof = homologous(alloc, &surface, &split, &first, &second)?;
#![tactic(auto)]

mod cutting;
mod deciding;
mod face_tree;
mod heights;
mod numbers;

pub use deciding::{HomologyProof, homologous};
pub use numbers::Numbers;
