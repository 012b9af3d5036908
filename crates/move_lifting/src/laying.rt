//! Walks without spurs that are laid vertex by vertex, with no moves noted.
ghost use Rattle.std.specs.Prelude.{◌≡◌, ◌↔◌, ◌-◌, ◌<◌, ◌∷◌, [], ◌++◌, length, slice_index, IfOk, OnOk, IsTrue};
ghost use Rattle.surf_model.specs.FaceLists.{FaceList};
ghost use Rattle.surf_model.specs.FreeWalks.{AreFreelyEqual, HasNoSpur};
ghost use Rattle.surf_model.specs.Vertices.{numbers};

use std::alloc::{AllocError, Global};
use surf_model::VertexName;

/// The walk of one vertex.
pub(crate) fn walk_of_one(alloc: Global, vertex: VertexName) -> Result<Vec<VertexName>, AllocError>
    ensures { IfOk result (λ walk. numbers walk.items ≡ vertex.0 ∷ []) }
{
    let mut walk = Vec::new(alloc);
    walk.push(vertex)?;
    Ok(walk)
}

/// Goes on along more vertices. Where that leads straight back, the spur is taken out.
pub(crate) fn put_all(walk: &mut Vec<VertexName>, vertices: &[VertexName]) -> Result<(), AllocError>
    requires some { 0 < length walk.old.items }
    requires no_spur { HasNoSpur (numbers walk.old.items) }
    ensures some { OnOk result (0 < length walk.new.items) }
    ensures no_spur { OnOk result (HasNoSpur (numbers walk.new.items)) }
    ensures freely { OnOk result ((mesh : FaceList)
        → AreFreelyEqual mesh (numbers walk.old.items ++ numbers vertices.now) (numbers walk.new.items)) }
{
    for vertex in vertices {
        put_vertex(walk, *vertex)?;
    }
    Ok(())
}

/// Goes on to a vertex, or takes the last one out where that leads straight back.
pub(crate) fn put_vertex(walk: &mut Vec<VertexName>, next: VertexName) -> Result<(), AllocError>
    requires some { 0 < length walk.old.items }
    requires no_spur { HasNoSpur (numbers walk.old.items) }
    ensures some { OnOk result (0 < length walk.new.items) }
    ensures no_spur { OnOk result (HasNoSpur (numbers walk.new.items)) }
    ensures freely { OnOk result ((mesh : FaceList)
        → AreFreelyEqual mesh (numbers walk.old.items ++ next.0 ∷ []) (numbers walk.new.items)) }
{
    if leads_back(walk, next) {
        walk.pop();
    } else {
        walk.push(next)?;
    }
    Ok(())
}

/// Whether a walk comes to its last vertex from this one.
fn leads_back(walk: &[VertexName], next: VertexName) -> bool
    ensures { IsTrue result
        ↔ ((1 < length walk.now) × (slice_index (numbers walk.now) (length walk.now - 2) ≡ next.0)) }
{
    let before = walk.len();
    before > 1 && walk[before - 2] == next
}
