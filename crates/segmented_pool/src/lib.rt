//! A pool of cells with one long chain, any place of which is near.
//!
//! The chain lies as a row of short chains in one pool, its segments, each with a remembered place of its own. So a
//! place is found by going over the lengths of segments, and then over entries of one segment. A caller sees what it
//! sees of a pool with one chain. Proved: each edit is that of the list, and no edit within `spare` can be refused.
//!
//!     let mut pool = Pool::start(alloc, 3, 512)?;
//!     pool.push_after(CHAIN, 0, 7);
#![tactic(auto)]

mod pool;
mod segments;

pub use pool::{CHAIN, Pool};
