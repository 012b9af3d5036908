//! Whether walks are homotopic on a compact surface, closed or with boundary, orientable or not, pair by pair.
ghost use Rattle.homotopy_arrays.specs.MeshArrays.{mesh_from_arrays};
ghost use Rattle.homotopy_c.specs.Told.{IsDecideAnyCall};

use crate::decide::put_bytes;
use crate::outcome::Outcome;
use crate::room::short_room;
use homotopy_arrays::{MeshArrays, decide_any_arrays};
use std::alloc::Global;

/// What `homotopy_decide` tells, on any compact surface: in one piece or in several, closed or with boundary, orientable or not. Where the
/// mesh is none, the code is that of the first condition that fails; where its double or its cover would be larger than a mesh may be, that
/// of the limit.
///
/// Where the call ends with another code than `DONE`, `answers` is left as it was.
#[unsafe(no_mangle)]
pub extern "C" fn homotopy_decide_any(
    alloc: Global,
    vertices: u32,
    sizes: &[u32],
    corners: &[u32],
    walk_sizes: &[u32],
    walk_vertices: &[u32],
    answers: &mut [u8],
    outcome: &mut Outcome,
)
    ensures { IsDecideAnyCall (mesh_from_arrays vertices sizes.now corners.now) walk_sizes.now walk_vertices.now answers.old answers.new
        outcome.new }
{
    let wanted = walk_sizes.len() / 2;
    if answers.len() < wanted {
        *outcome = short_room(wanted);
        return;
    }
    let mesh = MeshArrays {
        vertices,
        sizes,
        corners,
    };
    *outcome = put_bytes(
        decide_any_arrays(alloc, mesh, walk_sizes, walk_vertices),
        answers,
    );
}
