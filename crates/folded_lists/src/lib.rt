//! Lists of moves that lead on a cover or the double of a mesh, made lists on the mesh.
//!
//! A question on a surface that is not orientable is asked on its cover (`orientation_cover`). A list of moves that leads there becomes one
//! that leads on the mesh, each move the one below it: `lower`. Proved: it leads between the walks below, with its exact peak.
//!
//! A question on a surface with boundary is asked on its double (`doubling`). A list of moves that leads there between walks of the mesh
//! becomes one that leads between them on the mesh, each move one or none: `fold`. Proved: it leads between these walks, with its exact
//! peak, and has no more moves and no greater peak. `move_below` tells of one move, at a place that the caller finds.
//!
//!     let above = find_list(alloc, &cover, &first_lift, &second_lift)?;
//!     let list = lower(alloc, &faces, &above)?;
//!
//!     let above = find_list(alloc, &double, &first, &second)?;
//!     let list = fold(alloc, &faces, &double, &sides, &first, &above)?;
#![tactic(auto)]

mod below;
mod entries;
mod folding;
pub mod laws;
mod lowering;

pub use below::move_below;
pub use folding::fold;
pub use lowering::lower;
