//! Walks that are led off the cotree of a surface.
ghost use Rattle.std.specs.Prelude.{◌≡◌, ◌+◌, ◌*◌, ◌<◌, ◌≤◌, ◌^◌, [], ◌∷◌, ◌++◌, true, length, IfOk, OnOk, All};
ghost use Rattle.surf_model.specs.FaceLists.{face_at, is_edge};
ghost use Rattle.surf_model.specs.FreeWalks.{HasNoSpur};
ghost use Rattle.surf_model.specs.Vertices.{numbers};
ghost use Rattle.surf_model.specs.Walks.{IsWalk, HaveCommonEnds, darts};
ghost use Rattle.halfedge_map.specs.DartMaps.{darts_of};
ghost use Rattle.halfedge_map.specs.OrientedMeshes.{IsOrientedSurface};
ghost use Rattle.tree_cotree.specs.Splits.{IsSplit};
ghost use Rattle.polygon_cut.specs.SpokeLoops.{LeavesCotree, IsOffCotree};
ghost use Rattle.move_lifting.specs.Lifts.{LeadsAtPeak};
ghost use Rattle.move_lifting.specs.Loads.{IsLedOn};
ghost use Rattle.move_lifting.specs.Tracks.{last_of};
ghost use Rattle.move_lifting.specs.Crossings.{IsStepOf, IsCrossed};
ghost use Rattle.move_lifting.specs.Cuts.{IsSplitSurface};
ghost use Rattle.move_lifting.specs.declared.expanding.TheConstants.{MOST_PASSED_ENTRIES};

use crate::crossing::{FaceStep, face_below, push_rest};
use crate::cut::SplitSurface;
use crate::lifted::Lifted;
use crate::track::Track;
use halfedge_map::Surface;
use std::alloc::{AllocError, Global};
use surf_model::{Faces, Move, MoveList, VertexName, Walk};
use tree_cotree::Split;

/// The most sides of a surface on which lists of moves are made.
pub const MOST_LIFTED_SIDES: u32 = 16_384;

/// The most darts of the walks between which a list of moves is made, together.
pub const MOST_LIFTED_DARTS: u32 = 512;

/// The most moves of a short list within these limits: for each of 512 darts a move for each of 16,384 sides and one more.
pub const MOST_SHORT_MOVES: u32 = 8_389_120;

/// The greatest of low peaks within these limits: half of three for each of 512 darts and seven more, for each of 16,384 sides.
pub const MOST_LOW_PEAK: u32 = 12_640_256;

/// The most entries of a walk that is led off the cotree: no walk on the way has 2^31 entries then.
pub(crate) const MOST_PASSED_ENTRIES: u32 = 131_071;

/// Leads a walk off the cotree of a surface: every dart on a cotree edge is replaced by the rest of the face below the
/// edge, again and again, and spurs are taken out.
///
/// It goes over the walk once. The peak is that of the moves. No walk on the way has more darts than the surface for each dart of
/// the first.
pub fn expand(
    alloc: Global,
    surface: &Surface,
    split: &Split,
    walk: &Walk,
) -> Result<Lifted, AllocError>
    requires split { IsSplit surface.now split.now }
    requires walk { IsWalk surface.now.mesh walk.now }
    requires sides { darts_of surface.now ≤ MOST_LIFTED_SIDES }
    requires few { darts walk.now ≤ MOST_LIFTED_DARTS }
    ensures leads { IfOk result (λ lifted. LeadsAtPeak surface.now.mesh walk.now lifted.moves lifted.walk) }
    ensures off_cotree { IfOk result (λ lifted. IsOffCotree surface.now split.now lifted.walk) }
    ensures no_spur { IfOk result (λ lifted. HasNoSpur lifted.walk) }
    ensures ends { IfOk result (λ lifted. HaveCommonEnds walk.now lifted.walk) }
    ensures leaves { IfOk result (λ lifted. All (LeavesCotree surface.now split.now) lifted.moves.moves) }
    ensures long { IfOk result (λ lifted. darts lifted.walk ≤ darts walk.now * darts_of surface.now) }
    ensures low { IfOk result (λ lifted. lifted.moves.peak ≤ darts walk.now * darts_of surface.now) }
{
    let vertices = vertices_of(alloc, walk)?;
    let moves = MoveList::new(alloc, walk.darts());
    let on = SplitSurface { surface, split };
    let track = lead_all(alloc, &on, &vertices, 0, moves)?;
    track.finish(alloc)
}

/// The vertices of a walk.
pub(crate) fn vertices_of(alloc: Global, walk: &Walk) -> Result<Vec<VertexName>, AllocError>
    ensures { IfOk result (λ vertices. numbers vertices.items ≡ walk.now) }
{
    let mut vertices = Vec::new(alloc);
    for place in 0..=walk.darts() {
        vertices.push(walk.at(place))?;
    }
    Ok(vertices)
}

/// Leads a walk off the cotree, with `behind` entries behind it, by moves that come after those that led to it.
pub(crate) fn lead_all(
    alloc: Global,
    on: &SplitSurface<'_>,
    walk: &[VertexName],
    behind: u32,
    moves: MoveList,
) -> Result<Track, AllocError>
    requires on { IsSplitSurface on.now }
    requires walk { IsWalk on.now.surface.now.mesh (numbers walk.now) }
    requires few { length walk.now ≤ MOST_PASSED_ENTRIES }
    requires behind { behind ≤ MOST_LIFTED_DARTS }
    ensures led { IfOk result (λ track. IsLedOn on.now.surface.now on.now.split.now behind (numbers walk.now) moves
        track.walk track.list) }
    ensures off_cotree { IfOk result (λ track. IsOffCotree on.now.surface.now on.now.split.now track.walk) }
    ensures no_spur { IfOk result (λ track. HasNoSpur track.walk) }
    ensures few { IfOk result (λ track. length track.walk < 2 ^ 31) }
    // What holds of every surface.
    ensures valid { IfOk result (λ _. IsOrientedSurface on.now.surface.now) }
{
    let mut track = Track::start(alloc, walk[0], 0, moves)?;
    let mut pending = Vec::with_capacity(alloc, on.surface.darts() as usize)?;
    for place in 1..walk.len() {
        let after = (walk.len() - place - 1) as u32 + behind;
        lead_on(&mut track, &mut pending, on, walk[place], after)?;
    }
    Ok(track)
}

/// Leads a track on to the vertex that stands next in the walk, with `behind` entries behind it, off the cotree: a step
/// across a cotree edge is replaced by the rest of the face below, step by step.
///
/// `pending` is empty before and after: it keeps the vertices that are still to come, the next one last.
fn lead_on(
    track: &mut Track,
    pending: &mut Vec<VertexName>,
    on: &SplitSurface<'_>,
    to: VertexName,
    behind: u32,
) -> Result<(), AllocError>
    requires on { IsSplitSurface on.now }
    requires pending { pending.old.items ≡ [] }
    requires some { 0 < length track.old.walk }
    requires no_spur { HasNoSpur track.old.walk }
    requires off_cotree { IsOffCotree on.now.surface.now on.now.split.now track.old.walk }
    requires edge { is_edge on.now.surface.now.mesh (last_of track.old.walk) to.0 ≡ true }
    requires room { length track.old.walk + darts_of on.now.surface.now + behind < 2 ^ 31 }
    ensures pending { OnOk result (pending.new.items ≡ []) }
    ensures no_spur { OnOk result (HasNoSpur track.new.walk) }
    ensures off_cotree { OnOk result (IsOffCotree on.now.surface.now on.now.split.now track.new.walk) }
    ensures long { OnOk result (length track.new.walk ≤ length track.old.walk + darts_of on.now.surface.now) }
    ensures led { OnOk result (IsLedOn on.now.surface.now on.now.split.now behind (track.old.walk ++ to.0 ∷ []) track.old.list
        track.new.walk track.new.list) }
{
    // With each step one of the darts below the edge goes for good, so there are no more steps than darts, and no more vertices.
    track.reserve(on.surface.darts())?;
    pending.push(to)?;
    for _step in 0..on.surface.darts() {
        let Some(next) = pending.pop() else {
            return Ok(());
        };
        match face_below(on.surface, on.split, track.last(), next) {
            Some(step) => cross(track, pending, on.surface.faces(), step, behind)?,
            None => track.put(next, pending.len() as u32 + behind)?,
        }
    }
    Ok(())
}

/// Replaces the step from the last vertex of a track, whose end is taken from `pending`, by the rest of its face.
pub(crate) fn cross(
    track: &mut Track,
    pending: &mut Vec<VertexName>,
    faces: &Faces,
    step: FaceStep,
    behind: u32,
) -> Result<(), AllocError>
    requires step { IsStepOf faces.now step }
    requires room { length track.old.walk + length pending.old.items + length (face_at faces.now step.face.0) + behind < 2 ^ 31 }
    ensures crossed { OnOk result
        (IsCrossed faces.now step behind track.old (numbers pending.old.items) track.new (numbers pending.new.items)) }
    ensures spare { OnOk result (track.new.spare ≡ track.old.spare) }
{
    push_rest(pending, faces, step)?;
    let across = Move::Across {
        at: track.place(),
        face: step.face,
        corner: step.corner,
        forward: step.forward,
        taken: 1,
    };
    track.note(across, pending.len() as u32 + behind)
}
