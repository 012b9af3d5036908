//! Lists that are edited in place, each near its remembered place, in cells that are reserved before.
//!
//! A caller sees a pool as the list of each live chain and a number `spare` of cells that can be taken. Proved: each
//! edit is that of the list, all other chains keep theirs, and no edit within `spare` can be refused.
//!
//!     pool.reserve(3)?;
//!     let chain = pool.start_chain();
//!     pool.push_after(chain, 0, 7);
#![tactic(auto)]

mod cells;
mod entries;
mod pool;

pub use cells::CellName;
pub use entries::{Entries, Halves};
pub use pool::Pool;
