//! Normal walks, and the walks of one class.
ghost use Rattle.std.specs.Prelude.{◌≡◌, ◌+◌, ◌≤◌, ◌↔◌, IsTrue, IfOk, OnOk};
ghost use Rattle.surf_model.specs.FaceLists.{total_sides};
ghost use Rattle.surf_model.specs.Moves.{Homotopic};
ghost use Rattle.surf_model.specs.Walks.{IsWalk, HaveCommonEnds, darts};
ghost use Rattle.free_forms.specs.Normal.{IsNormalWalkOf};
ghost use Rattle.free_forms.specs.Parents.{HasFaceParents};
ghost use Rattle.free_forms.specs.declared.limits.TheConstants.{MOST_OPEN_SIDES, MOST_OPEN_DARTS};

use crate::open_mesh::OpenMesh;
use crate::reduction::reduce;
use std::alloc::{AllocError, Global};
use surf_model::Walk;

/// The normal walk of a walk: the one without spurs and without parent edges to which some list of moves leads.
pub fn normal(alloc: Global, mesh: &OpenMesh, walk: &Walk) -> Result<Walk, AllocError>
    requires walk { IsWalk mesh.now.mesh walk.now }
    requires sides { total_sides mesh.now.mesh ≤ MOST_OPEN_SIDES }
    requires few { darts walk.now ≤ MOST_OPEN_DARTS }
    ensures normal { IfOk result (λ other. IsNormalWalkOf mesh.now walk.now other) }
    // What holds of every open mesh.
    ensures parents { OnOk result (HasFaceParents mesh.now) }
{
    let reduced = reduce(alloc, mesh, walk)?;
    reduced.into_walk(alloc)
}

/// Whether two walks with common ends are homotopic: their normal walks are equal.
pub fn same_class(
    alloc: Global,
    mesh: &OpenMesh,
    first: &Walk,
    second: &Walk,
) -> Result<bool, AllocError>
    requires first { IsWalk mesh.now.mesh first.now }
    requires second { IsWalk mesh.now.mesh second.now }
    requires ends { HaveCommonEnds first.now second.now }
    requires sides { total_sides mesh.now.mesh ≤ MOST_OPEN_SIDES }
    requires few { darts first.now + darts second.now ≤ MOST_OPEN_DARTS }
    ensures { IfOk result (λ same. IsTrue same ↔ Homotopic mesh.now.mesh first.now second.now) }
{
    let one = normal(alloc, mesh, first)?;
    let two = normal(alloc, mesh, second)?;
    Ok(are_equal(&one, &two))
}

/// Whether two walks are equal.
pub(crate) fn are_equal(first: &Walk, second: &Walk) -> bool
    ensures { IsTrue result ↔ (first.now ≡ second.now) }
{
    if first.darts() != second.darts() {
        return false;
    }
    for place in 0..=first.darts() {
        if first.at(place) != second.at(place) {
            return false;
        }
    }
    true
}
