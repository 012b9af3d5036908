//! Whether the faces of a mesh can be turned round so that they are listed coherently.
//!
//! A caller sees signs as a list with `true` for each face that is flipped, and an odd chain as its links. Proved: the
//! signs are coherent, and are the only ones that keep the least face of each class; where there are none, a chain of
//! faces is given that is odd in the mesh, and an odd chain excludes coherent signs.
//!
//!     let signs = orient(alloc, &faces, &sides)?;
//!     let turned = signs.flipped(FaceName(3));
#![tactic(auto)]

mod across;
mod climb;
pub mod fault;
pub mod laws;
mod listed;
pub mod orienting;
mod search;
mod trees;
mod waiting;

pub use fault::OrientFault;
pub use orienting::orient;
pub use surf_model::{ChainLink, OddChain, Signs};
