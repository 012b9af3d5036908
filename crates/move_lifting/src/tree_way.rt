//! Ways up the tree of a split, and down it.
ghost use Rattle.std.specs.Prelude.{◌≡◌, ◌<◌, ◌∷◌, ◌++◌, ℕ, List, true, length, IfOk, OnOk};
ghost use Rattle.surf_model.specs.FaceLists.{is_used};
ghost use Rattle.surf_model.specs.FreeWalks.{AreFreelyEqual, HasNoSpur};
ghost use Rattle.surf_model.specs.Vertices.{numbers};
ghost use Rattle.tree_cotree.specs.Splits.{IsSplit};
ghost use Rattle.polygon_cut.specs.SpokeLoops.{AreWaysUp, backward};

use crate::cut::SplitSurface;
use crate::inserting::back_along;
use crate::laying::put_all;
use halfedge_map::Surface;
use std::alloc::{AllocError, Global};
use surf_model::VertexName;
use tree_cotree::Split;

/// Goes on from a vertex up the tree, and down it to another vertex, without spurs.
pub(crate) fn put_over(
    alloc: Global,
    on: &SplitSurface<'_>,
    walk: &mut Vec<VertexName>,
    from: VertexName,
    to: VertexName,
) -> Result<(), AllocError>
    requires split { IsSplit on.now.surface.now on.now.split.now }
    requires from { is_used on.now.surface.now.mesh from.0 ≡ true }
    requires to { is_used on.now.surface.now.mesh to.0 ≡ true }
    requires some { 0 < length walk.old.items }
    requires no_spur { HasNoSpur (numbers walk.old.items) }
    ensures some { OnOk result (0 < length walk.new.items) }
    ensures no_spur { OnOk result (HasNoSpur (numbers walk.new.items)) }
    ensures freely { OnOk result ((root : ℕ) (ways : ℕ → List ℕ) → AreWaysUp on.now.surface.now on.now.split.now root ways
        → AreFreelyEqual on.now.surface.now.mesh (numbers walk.old.items ++ (ways from.0 ++ backward to.0 (ways to.0)))
        (numbers walk.new.items)) }
{
    let up = way_up(alloc, on.surface, on.split, from)?;
    let way = way_up(alloc, on.surface, on.split, to)?;
    let down = back_along(alloc, &way)?;
    put_all(walk, &up[1..])?;
    put_all(walk, &down)
}

/// The vertices on the way from a vertex up the tree to its root, both included.
pub(crate) fn way_up(
    alloc: Global,
    surface: &Surface,
    split: &Split,
    start: VertexName,
) -> Result<Vec<VertexName>, AllocError>
    requires split { IsSplit surface.now split.now }
    requires used { is_used surface.now.mesh start.0 ≡ true }
    ensures { IfOk result (λ way. (root : ℕ) (ways : ℕ → List ℕ) → AreWaysUp surface.now split.now root ways
        → numbers way.items ≡ start.0 ∷ ways start.0) }
{
    let mut way = Vec::new(alloc);
    let mut last = start;
    // No vertex comes twice.
    for _step in 0..surface.faces().count() {
        way.push(last)?;
        let Some(dart) = split.parent(last) else {
            return Ok(way);
        };
        last = surface.origin(surface.twin(dart));
    }
    Ok(way)
}
