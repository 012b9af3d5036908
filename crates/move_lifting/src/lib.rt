//! Lists of moves that are made: that take the spurs out of a walk, lead it off the cotree of a surface, and lead from one
//! walk to another.
//!
//! A caller who has a surface, its split and its polygon calls `lift` for two walks with common ends; `reduce_free` and `expand` are what
//! it is made of. Proved: the moves lead, with the exact peak, and `lift` gives none exactly where no list of moves leads, up to 16,384
//! sides and 512 darts of both walks. The peak is low: twice the peak is at most three times the darts and seven, for each side. On a
//! sphere there is always a list, and a short one: at most a move for each side, and one more, for each dart. (`reduce_free`: on every
//! mesh; `expand`: with at most as many darts on the way as the surface for each dart of the first walk.)
//!
//!     let list = lift(alloc, &surface, &split, &polygon, &first, &second)?;
#![tactic(auto)]

mod contracting;
mod crossing;
mod cut;
mod depths;
pub mod expanding;
mod inserting;
mod last_loop;
pub mod laws;
mod laying;
pub mod lifted;
pub mod lifting;
mod looping;
mod passing;
mod pooled_walk;
mod reducing;
mod spoke_walks;
mod track;
mod tree_way;

pub use expanding::{
    MOST_LIFTED_DARTS, MOST_LIFTED_SIDES, MOST_LOW_PEAK, MOST_SHORT_MOVES, expand,
};
pub use lifted::{Lifted, reduce_free};
pub use lifting::lift;
