//! Walks with the moves that lead to them.
ghost use Rattle.std.specs.Prelude.{◌≡◌, IfOk, All};
ghost use Rattle.surf_model.specs.FaceLists.{FaceList};
ghost use Rattle.surf_model.specs.FreeWalks.{HasNoSpur};
ghost use Rattle.surf_model.specs.Walks.{darts, HaveCommonEnds};
ghost use Rattle.move_lifting.specs.Lifts.{LeadsAtPeak, IsRemoval};

use crate::expanding::vertices_of;
use crate::inserting::reduce_all;
use std::alloc::{AllocError, Global};
use surf_model::{MoveList, Walk};

/// A walk, and moves that lead to it.
#[derive(Debug, Drop)]
pub struct Lifted {
    pub walk: Walk,
    pub moves: MoveList,
}

/// Takes the spurs out of a walk until there is none.
///
/// It goes over the walk once. The moves are allowed on every mesh; removals make no walk longer, so the peak is the
/// number of darts of the walk.
pub fn reduce_free(alloc: Global, walk: &Walk) -> Result<Lifted, AllocError>
    ensures leads { IfOk result (λ lifted. (mesh : FaceList) → LeadsAtPeak mesh walk.now lifted.moves lifted.walk) }
    ensures no_spur { IfOk result (λ lifted. HasNoSpur lifted.walk) }
    ensures removals { IfOk result (λ lifted. All IsRemoval lifted.moves.moves) }
    ensures peak { IfOk result (λ lifted. lifted.moves.peak ≡ darts walk.now) }
    ensures ends { IfOk result (λ lifted. HaveCommonEnds walk.now lifted.walk) }
{
    let vertices = vertices_of(alloc, walk)?;
    let moves = MoveList::new(alloc, walk.darts());
    let track = reduce_all(alloc, &vertices, 0, moves)?;
    track.finish(alloc)
}
