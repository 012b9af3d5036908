//! A walk on its way to its normal walk, vertex by vertex, with the moves that lead there.
ghost use Rattle.std.specs.Prelude.{◌≡◌, ◌≢◌, ◌+◌, ◌-◌, ◌*◌, ◌<◌, ◌≤◌, ◌↔◌, [], ◌∷◌, ◌++◌, length, slice_index, true, if◌then◌else◌, IsTrue, IfOk, OnOk, IfSome, IfNone};
ghost use Rattle.surf_model.specs.FaceLists.{face_at, next_corner, total_sides};
ghost use Rattle.surf_model.specs.Darts.{IsSide};
ghost use Rattle.surf_model.specs.Vertices.{numbers};
ghost use Rattle.surf_model.specs.Walks.{darts};
ghost use Rattle.surf_model.specs.declared.limits.TheConstants.{MOST_PEAK};
ghost use Rattle.free_forms.specs.Normal.{IsNormal};
ghost use Rattle.free_forms.specs.Parents.{HasFaceParents, Joins, parent_of};
ghost use Rattle.walk_actions.specs.Actions.{vertices_beyond};
ghost use Rattle.free_forms.specs.PeakedLists.{LeadsAtPeak, IsListWithin};
ghost use Rattle.free_forms.specs.Reductions.{state_of, settled, whole, darts_in, IsTaken, StepsBack, SkipsSpur, IsWayAlong, Expands, IsStep, HasFaceRoom};
ghost use Rattle.free_forms.specs.declared.limits.TheConstants.{MOST_OPEN_SIDES, MOST_OPEN_DARTS};

use crate::open_mesh::OpenMesh;
use std::alloc::{AllocError, Global};
use surf_model::faces::corner_after;
use surf_model::{FaceName, Faces, Move, MoveList, Side, VertexName, Walk};

/// A walk: a part that is normal, then the vertices to come; and the moves that led to it.
#[derive(Drop)]
pub(crate) struct Reduction {
    /// The vertices of the normal part before its last one.
    earlier: Vec<VertexName>,
    last: VertexName,
    /// The vertices to come, the next one last.
    pending: Vec<VertexName>,
    moves: MoveList,
}

/// Leads a walk to its normal walk, by moves with their exact peak.
pub(crate) fn reduce(alloc: Global, mesh: &OpenMesh, walk: &Walk) -> Result<Reduction, AllocError>
    requires sides { total_sides mesh.now.mesh ≤ MOST_OPEN_SIDES }
    requires few { darts walk.now ≤ MOST_OPEN_DARTS }
    ensures leads { IfOk result (λ reduction. LeadsAtPeak mesh.now.mesh walk.now (state_of reduction).list (whole (state_of reduction))) }
    ensures normal { IfOk result (λ reduction. IsNormal mesh.now (whole (state_of reduction))) }
    ensures few { IfOk result (λ reduction. darts_in (state_of reduction) ≤ MOST_PEAK) }
    ensures short { IfOk result (λ reduction. IsListWithin (darts walk.now * MOST_OPEN_SIDES) (state_of reduction).list) }
    ensures done { IfOk result (λ reduction. (state_of reduction).coming ≡ []) }
    // What holds of every open mesh.
    ensures parents { OnOk result (HasFaceParents mesh.now) }
{
    // The proof reads what holds of every open mesh.
    let _ = mesh.faces();
    let mut reduction = start(alloc, walk)?;
    while let Some(next) = take(&mut reduction) {
        step(&mut reduction, mesh, next)?;
    }
    Ok(reduction)
}

impl Reduction {
    /// The walk, once no vertex is to come.
    pub(crate) fn into_walk(self, alloc: Global) -> Result<Walk, AllocError>
        requires few { darts_in (state_of self) ≤ MOST_PEAK }
        requires done { (state_of self).coming ≡ [] }
        ensures { IfOk result (λ walk. walk ≡ whole (state_of self)) }
    {
        let (walk, _) = self.into_parts(alloc)?;
        Ok(walk)
    }

    /// The walk, once no vertex is to come, and the moves.
    pub(crate) fn into_parts(self, alloc: Global) -> Result<(Walk, MoveList), AllocError>
        requires few { darts_in (state_of self) ≤ MOST_PEAK }
        requires done { (state_of self).coming ≡ [] }
        ensures walk { IfOk result (λ parts. parts.0 ≡ whole (state_of self)) }
        ensures moves { IfOk result (λ parts. parts.1 ≡ (state_of self).list) }
    {
        let Reduction {
            mut earlier,
            last,
            pending: _,
            moves,
        } = self;
        earlier.push(last)?;
        let mut walk = Walk::new(alloc, earlier[0])?;
        for place in 1..earlier.len() {
            walk.push(earlier[place])?;
        }
        Ok((walk, moves))
    }
}

/// The whole walk to come, but its first vertex.
fn start(alloc: Global, walk: &Walk) -> Result<Reduction, AllocError>
    ensures front { IfOk result (λ reduction. (state_of reduction).front ≡ []) }
    ensures walk { IfOk result (λ reduction. whole (state_of reduction) ≡ walk.now) }
    ensures list { IfOk result (λ reduction. (state_of reduction).list ≡ record { moves = []; peak = darts walk.now }) }
{
    let mut pending = Vec::with_capacity(alloc, walk.darts() as usize)?;
    for back in 0..walk.darts() {
        pending.push(walk.at(walk.darts() - back))?;
    }
    Ok(Reduction {
        earlier: Vec::new(alloc),
        last: walk.at(0),
        pending,
        moves: MoveList::new(alloc, walk.darts()),
    })
}

/// Takes the next vertex from those to come.
fn take(reduction: &mut Reduction) -> Option<VertexName>
    ensures some { IfSome result (λ next. IsTaken (state_of reduction.old) next.0 (state_of reduction.new)) }
    ensures none { IfNone result ((state_of reduction.old).coming ≡ []) }
    ensures same { IfNone result (state_of reduction.new ≡ state_of reduction.old) }
{
    reduction.pending.pop()
}

/// Goes on to the next vertex: takes out the spur that it ends, or the one that it begins along a parent edge, or expands the edge if it is
/// a parent edge, or puts the vertex on.
fn step(reduction: &mut Reduction, mesh: &OpenMesh, next: VertexName) -> Result<(), AllocError>
    requires few { darts_in (state_of reduction.old) < MOST_PEAK }
    requires room { HasFaceRoom mesh.now (state_of reduction.old) next.0 }
    ensures step { OnOk result (IsStep mesh.now (state_of reduction.old) next.0 (state_of reduction.new)) }
    // What holds of every open mesh.
    ensures parents { OnOk result (HasFaceParents mesh.now) }
{
    let parent = mesh.parent_between(reduction.last, next);
    if came_from(reduction, next) {
        return step_back(reduction);
    }
    match parent {
        Some(_) if comes_back(reduction) => skip_spur(reduction, next),
        Some(side) => expand(reduction, mesh, side, next),
        None => step_on(reduction, next),
    }
}

/// Whether the vertex before the last one is this one.
fn came_from(reduction: &Reduction, vertex: VertexName) -> bool
    ensures { IsTrue result ↔ ((0 < length (state_of reduction.now).front)
        × (slice_index (state_of reduction.now).front (length (state_of reduction.now).front - 1) ≡ vertex.0)) }
{
    let before = reduction.earlier.len();
    before > 0 && reduction.earlier[before - 1] == vertex
}

/// Takes out the spur that a step back to the vertex before the last one makes.
fn step_back(reduction: &mut Reduction) -> Result<(), AllocError>
    requires some { 0 < length (state_of reduction.old).front }
    requires few { darts_in (state_of reduction.old) < MOST_PEAK }
    ensures { OnOk result (StepsBack (state_of reduction.old)
        (slice_index (state_of reduction.old).front (length (state_of reduction.old).front - 1)) (state_of reduction.new)) }
{
    let at = reduction.earlier.len() as u32 - 1;
    let via = reduction.last;
    reduction.moves.push(
        Move::Remove { at, via },
        at + reduction.pending.len() as u32,
    )?;
    reduction.last = reduction.earlier.pop().unwrap();
    Ok(())
}

/// Whether the vertex behind the next one, which was taken, is the last one.
fn comes_back(reduction: &Reduction) -> bool
    ensures { IsTrue result ↔ ((0 < length (state_of reduction.now).coming)
        × (slice_index (state_of reduction.now).coming 0 ≡ (state_of reduction.now).last)) }
{
    let left = reduction.pending.len();
    left > 0 && reduction.pending[left - 1] == reduction.last
}

/// Takes out the spur to the next vertex and back, before it is gone along.
fn skip_spur(reduction: &mut Reduction, via: VertexName) -> Result<(), AllocError>
    requires some { 0 < length (state_of reduction.old).coming }
    requires back { slice_index (state_of reduction.old).coming 0 ≡ (state_of reduction.old).last }
    requires few { darts_in (state_of reduction.old) < MOST_PEAK }
    ensures { OnOk result (SkipsSpur (state_of reduction.old) via.0 (state_of reduction.new)) }
{
    reduction.pending.pop();
    let at = reduction.earlier.len() as u32;
    reduction.moves.push(
        Move::Remove { at, via },
        at + reduction.pending.len() as u32,
    )
}

/// Puts the next vertex on.
fn step_on(reduction: &mut Reduction, next: VertexName) -> Result<(), AllocError>
    ensures { OnOk result (state_of reduction.new ≡ record (state_of reduction.old) {
      front = (state_of reduction.old).front ++ (state_of reduction.old).last ∷ [];
      last = next.0;
    }) }
{
    reduction.earlier.push(reduction.last)?;
    reduction.last = next;
    Ok(())
}

/// Replaces the edge to the next vertex, which is that of a face's parent, by its expansion.
fn expand(
    reduction: &mut Reduction,
    mesh: &OpenMesh,
    side: Side,
    next: VertexName,
) -> Result<(), AllocError>
    requires face { side.face.0 < length mesh.now.mesh.faces }
    requires parent { side ≡ parent_of mesh.now side.face.0 }
    requires joined { Joins mesh.now.mesh side (state_of reduction.old).last next.0 }
    requires room { HasFaceRoom mesh.now (state_of reduction.old) next.0 }
    ensures { OnOk result (Expands mesh.now (state_of reduction.old) next.0 (state_of reduction.new)) }
{
    let faces = mesh.faces();
    let forward = faces.corner(side.face, side.at) == reduction.last;
    let corner = corner_along(faces, side, forward);
    push_others(&mut reduction.pending, faces, side.face, corner, forward)?;
    let at = reduction.earlier.len() as u32;
    let crossing = Move::Across {
        at,
        face: side.face,
        corner,
        forward,
        taken: 1,
    };
    reduction
        .moves
        .push(crossing, at + reduction.pending.len() as u32)
}

/// Where the way along a side begins: at its own corner, or from its other end at the corner behind.
fn corner_along(faces: &Faces, side: Side, forward: bool) -> u32
    requires { IsSide faces.now side }
    ensures { result ≡ (if forward then side.at else next_corner true (length (face_at faces.now side.face.0)) side.at) }
{
    match forward {
        true => side.at,
        false => faces.after(side).at,
    }
}

/// Pushes the vertices of a face but the one at a corner, in order from that corner on.
fn push_others(
    pending: &mut Vec<VertexName>,
    faces: &Faces,
    face: FaceName,
    corner: u32,
    forward: bool,
) -> Result<(), AllocError>
    requires face { face.0 < length faces.now.faces }
    requires corner { corner < length (face_at faces.now face.0) }
    ensures { OnOk result (numbers pending.new.items
        ≡ numbers pending.old.items ++ vertices_beyond (face_at faces.now face.0) forward corner (length (face_at faces.now face.0) - 1)) }
{
    let size = faces.sides(face);
    let mut at = corner;
    for _step in 1..size {
        at = corner_after(forward, size, at);
        pending.push(faces.corner(face, at))?;
    }
    Ok(())
}
