//! What two walks have in common at their ends, apart from what is between.
//!
//! A caller who looks for moves from one walk to another takes off the darts that both begin with and those that both end with, finds moves
//! between what is left, and puts the common darts back. Proved: as many darts are taken off as there are; the walks are homotopic exactly
//! where what is left is; and the moves lead from the one walk to the other, with the exact peak.
//!
//!     let common = CommonDarts::of(&first, &second);
//!     let near = common.between(alloc, &first)?;
//!     let far = common.between(alloc, &second)?;
//!     let whole = common.put_back(alloc, list)?;
#![tactic(auto)]

pub mod common_darts;
pub mod laws;
pub mod raising;

pub use common_darts::CommonDarts;
pub use raising::raise_moves;
