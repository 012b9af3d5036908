//! Walks that are led off the cotree in passes, faces nearest the root first.
ghost use Rattle.std.specs.Prelude.{◌≡◌, ◌+◌, ◌<◌, ◌≤◌, ◌^◌, [], ◌∷◌, ◌++◌, ℕ, true, length, reverse, IfOk, OnOk, IfSome, slice_index};
ghost use Rattle.surf_model.specs.FaceLists.{face_at, is_edge};
ghost use Rattle.surf_model.specs.FreeWalks.{HasNoSpur};
ghost use Rattle.surf_model.specs.Vertices.{numbers};
ghost use Rattle.surf_model.specs.Walks.{IsWalk};
ghost use Rattle.halfedge_map.specs.OrientedMeshes.{IsOrientedSurface, OrientedMesh};
ghost use Rattle.tree_cotree.specs.Splits.{SplitView};
ghost use Rattle.polygon_cut.specs.SpokeLoops.{IsOffCotree};
ghost use Rattle.move_lifting.specs.Contractions.{IsLedFrom};
ghost use Rattle.move_lifting.specs.Crossings.{IsFaceBelow};
ghost use Rattle.move_lifting.specs.Cuts.{IsSplitSurface};
ghost use Rattle.move_lifting.specs.Loads.{IsLedOn};
ghost use Rattle.move_lifting.specs.Passes.{IsPass};
ghost use Rattle.move_lifting.specs.Tracks.{last_of};
ghost use Rattle.move_lifting.specs.declared.expanding.TheConstants.{MOST_PASSED_ENTRIES, MOST_LIFTED_DARTS};

use crate::crossing::{FaceStep, face_below};
use crate::cut::SplitSurface;
use crate::depths::{DEEPEST, face_depths};
use crate::expanding::{MOST_PASSED_ENTRIES, cross, lead_all};
use crate::track::Track;
use std::alloc::{AllocError, Global};
use surf_model::{MoveList, VertexName};

/// The most vertices that passes over a walk look at, together.
const MOST_LOOKED_AT: u64 = 2_000_000;

/// A pass over a walk, with `behind` entries behind it, that crosses the faces of one depth.
#[derive(Clone, Copy)]
pub(crate) struct Pass<'a> {
    pub(crate) on: &'a SplitSurface<'a>,
    /// For each face how deep it lies below the root of the cotree.
    pub(crate) depths: &'a [u32],
    pub(crate) depth: u32,
    pub(crate) behind: u32,
}

impl Pass<'_> {
    /// Goes over a walk once: each dart on a cotree edge whose face below has the depth of the pass is replaced by the rest of
    /// that face, and spurs are taken out. Where the walk would have too many entries a dart is left as it is.
    pub(crate) fn over(
        &self,
        alloc: Global,
        walk: &[VertexName],
        moves: MoveList,
    ) -> Result<Track, AllocError>
        requires pass { IsPass self.now }
        requires walk { IsWalk self.now.on.now.surface.now.mesh (numbers walk.now) }
        requires few { length walk.now ≤ MOST_PASSED_ENTRIES }
        ensures led { IfOk result (λ track. IsLedOn self.now.on.now.surface.now self.now.on.now.split.now self.now.behind
            (numbers walk.now) moves track.walk track.list) }
        ensures few { IfOk result (λ track. length track.walk ≤ MOST_PASSED_ENTRIES) }
    {
        let mut track = Track::start(alloc, walk[0], walk.len() as u32 - 1, moves)?;
        let mut pending = Vec::with_capacity(alloc, self.on.surface.darts() as usize)?;
        for place in 1..walk.len() {
            let left = (walk.len() - place - 1) as u32;
            self.step(&mut track, &mut pending, walk[place], left)?;
        }
        Ok(track)
    }

    /// Goes on to the vertex that stands next in the walk, with `left` entries of the walk behind it, across the face below
    /// where the pass crosses it.
    fn step(
        &self,
        track: &mut Track,
        pending: &mut Vec<VertexName>,
        to: VertexName,
        left: u32,
    ) -> Result<(), AllocError>
        requires pass { IsPass self.now }
        requires pending { pending.old.items ≡ [] }
        requires some { 0 < length track.old.walk }
        requires no_spur { HasNoSpur track.old.walk }
        requires edge { is_edge self.now.on.now.surface.now.mesh (last_of track.old.walk) to.0 ≡ true }
        requires few { length track.old.walk + 1 + left ≤ MOST_PASSED_ENTRIES }
        requires spare { left < track.old.spare }
        ensures pending { OnOk result (pending.new.items ≡ []) }
        ensures no_spur { OnOk result (HasNoSpur track.new.walk) }
        ensures few { OnOk result (length track.new.walk + left ≤ MOST_PASSED_ENTRIES) }
        ensures spare { OnOk result (left ≤ track.new.spare) }
        ensures led { OnOk result (IsLedOn self.now.on.now.surface.now self.now.on.now.split.now (left + self.now.behind)
            (track.old.walk ++ to.0 ∷ []) track.old.list track.new.walk track.new.list) }
    {
        let after = left + self.behind;
        let entries = track.place() + 2 + left;
        match self.crossing(track.last(), to, entries) {
            Some(step) => {
                let faces = self.on.surface.faces();
                track.reserve(left + faces.sides(step.face))?;
                cross(track, pending, faces, step, after)?;
                put_pending(track, pending, after)
            }
            None => track.put(to, after),
        }
    }

    /// The step round the face below the edge between two neighbours in a walk of so many entries, where the pass crosses it.
    fn crossing(&self, from: VertexName, to: VertexName, entries: u32) -> Option<FaceStep>
        requires pass { IsPass self.now }
        requires edge { is_edge self.now.on.now.surface.now.mesh from.0 to.0 ≡ true }
        requires few { entries ≤ MOST_PASSED_ENTRIES }
        ensures below { IfSome result (IsFaceBelow self.now.on.now.surface.now self.now.on.now.split.now from.0 to.0) }
        ensures depth { IfSome result (λ step. slice_index self.now.depths.now step.face.0 ≡ self.now.depth) }
        ensures room { IfSome result (λ step. entries + length (face_at self.now.on.now.surface.now.mesh step.face.0)
            ≤ MOST_PASSED_ENTRIES) }
    {
        let step = face_below(self.on.surface, self.on.split, from, to)?;
        let sides = self.on.surface.faces().sides(step.face);
        let is_crossed = self.depths[step.face.0 as usize] == self.depth
            && sides <= MOST_PASSED_ENTRIES - entries;
        if is_crossed { Some(step) } else { None }
    }
}

/// Puts what is pending on a track, the last one first.
fn put_pending(
    track: &mut Track,
    pending: &mut Vec<VertexName>,
    behind: u32,
) -> Result<(), AllocError>
    requires some { 0 < length track.old.walk }
    requires no_spur { HasNoSpur track.old.walk }
    requires room { length track.old.walk + length pending.old.items + behind < 2 ^ 31 }
    requires spare { length pending.old.items ≤ track.old.spare }
    ensures pending { OnOk result (pending.new.items ≡ []) }
    ensures no_spur { OnOk result (HasNoSpur track.new.walk) }
    ensures long { OnOk result (length track.new.walk ≤ length track.old.walk + length pending.old.items) }
    ensures cells { OnOk result (length track.new.walk + track.new.spare ≡ length track.old.walk + track.old.spare) }
    ensures led { OnOk result ((surface : OrientedMesh) (split : SplitView) → IsLedOn surface split behind
        (track.old.walk ++ reverse (numbers pending.old.items)) track.old.list track.new.walk track.new.list) }
{
    while let Some(next) = pending.pop() {
        track.put(next, pending.len() as u32 + behind)?;
    }
    Ok(())
}

/// Leads a walk off the cotree, as `lead_all` does, but faces nearest the root first: passes over the walk cross the faces of
/// the least depth, so that expansions that undo each other meet before they grow.
pub(crate) fn lead_in_passes(
    alloc: Global,
    on: &SplitSurface<'_>,
    walk: Vec<VertexName>,
    behind: u32,
    moves: MoveList,
) -> Result<Track, AllocError>
    requires on { IsSplitSurface on.now }
    requires led { IsLedFrom on.now.surface.now.mesh behind (numbers walk.items) moves }
    requires few { length walk.items ≤ MOST_PASSED_ENTRIES }
    requires behind { behind ≤ MOST_LIFTED_DARTS }
    ensures led { IfOk result (λ track. IsLedOn on.now.surface.now on.now.split.now behind (numbers walk.items) moves
        track.walk track.list) }
    ensures off_cotree { IfOk result (λ track. IsOffCotree on.now.surface.now on.now.split.now track.walk) }
    ensures no_spur { IfOk result (λ track. HasNoSpur track.walk) }
    // What holds of every surface.
    ensures valid { IfOk result (λ _. IsOrientedSurface on.now.surface.now) }
{
    let (walk, moves) = pass_over(alloc, on, walk, behind, moves)?;
    lead_all(alloc, on, &walk, behind, moves)
}

/// Passes over a walk, each over what the one before left, until no dart lies on a cotree edge or many vertices were looked at.
fn pass_over(
    alloc: Global,
    on: &SplitSurface<'_>,
    walk: Vec<VertexName>,
    behind: u32,
    moves: MoveList,
) -> Result<(Vec<VertexName>, MoveList), AllocError>
    requires on { IsSplitSurface on.now }
    requires led { IsLedFrom on.now.surface.now.mesh behind (numbers walk.items) moves }
    requires few { length walk.items ≤ MOST_PASSED_ENTRIES }
    requires behind { behind ≤ MOST_LIFTED_DARTS }
    ensures led { IfOk result (λ after. IsLedOn on.now.surface.now on.now.split.now behind (numbers walk.items) moves
        (numbers after.0.items) after.1) }
    ensures few { IfOk result (λ after. length after.0.items ≤ MOST_PASSED_ENTRIES) }
{
    let depths = face_depths(alloc, on)?;
    let mut walk = walk;
    let mut moves = moves;
    let mut looked_at = 0;
    for _pass in 0..MOST_LOOKED_AT {
        let vertices = walk.as_slice();
        let depth = least_depth(on, &depths, vertices);
        looked_at += walk.len() as u64;
        if depth == DEEPEST || looked_at > MOST_LOOKED_AT {
            return Ok((walk, moves));
        }
        let pass = Pass {
            on: &*on,
            depths: &depths,
            depth,
            behind,
        };
        let track = pass.over(alloc, vertices, moves)?;
        let (next, list) = track.into_parts(alloc)?;
        walk = next;
        moves = list;
    }
    Ok((walk, moves))
}

/// The least depth of a face below a dart of a walk.
fn least_depth(on: &SplitSurface<'_>, depths: &[u32], walk: &[VertexName]) -> u32
    requires on { IsSplitSurface on.now }
    requires depths { length depths.now ≡ length on.now.surface.now.mesh.faces }
    requires walk { IsWalk on.now.surface.now.mesh (numbers walk.now) }
{
    let mut least = DEEPEST;
    for place in 1..walk.len() {
        if let Some(step) = face_below(on.surface, on.split, walk[place - 1], walk[place]) {
            least = least.min(depths[step.face.0 as usize]);
        }
    }
    least
}
