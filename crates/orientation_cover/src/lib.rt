//! The orientation cover of a closed surface, which carries questions on one that is not orientable over to one that is.
//!
//! A way round each vertex is told by a bit at each corner: whether the face goes against it. An edge turns where the ways round its two
//! ends do not agree along it, and the cover along the edges that turn is orientable (`double_covers`). Over the vertex `v` of a mesh of
//! `N` vertices it has `v` on the lower sheet and `v + N` on the upper one; the faces that begin on the lower sheet come first.
//! Proved: where no edge has three sides there is one list of such bits, and so one cover, and `ways_round` finds it; `cover` makes the
//! cover, where it is no larger than a mesh may be; `lift` lifts a walk; and two walks are homotopic exactly where their lifts are.
//!
//!     let sides = Sides::build(alloc, &faces)?;
//!     let ways = ways_round(alloc, &faces, &sides)?;
//!     let cover = cover(alloc, &faces, &ways)?;
//!     let above = lift(alloc, &faces, &sides, &ways, &walk)?;
#![tactic(auto)]

mod building;
mod claims;
pub mod laws;
mod lifting;
mod sheets;
mod ways;

pub use building::cover;
pub use lifting::lift;
pub use ways::{WaysRound, ways_round};
