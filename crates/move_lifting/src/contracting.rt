//! A closed walk is contracted to its start, along the steps that leave nothing of its spokes.
ghost use Rattle.std.specs.Prelude.{◌≡◌, ◌+◌, ◌-◌, ◌*◌, ◌<◌, ◌≤◌, ◌^◌, ℕ, List, [], ◌∷◌, length, slice_index, All, Some, IfOk, OnOk};
ghost use Rattle.surf_model.specs.FreeWalks.{HasNoSpur};
ghost use Rattle.surf_model.specs.Walks.{IsWalk};
ghost use Rattle.halfedge_map.specs.DartMaps.{darts_of};
ghost use Rattle.spoke_paths.specs.PathSteps.{after_path_step};
ghost use Rattle.move_lifting.specs.Contractions.{IsLedFrom, LeavesNothing};
ghost use Rattle.move_lifting.specs.Cuts.{IsCut};
ghost use Rattle.move_lifting.specs.SpokeWalks.{IsLooper, IsLooping};
ghost use Rattle.move_lifting.specs.LoopFronts.{spokes_in_front};
ghost use Rattle.move_lifting.specs.LoopsPutIn.{IsFreelyPath};
ghost use Rattle.move_lifting.specs.Tracks.{GoesOn, last_of};
ghost use Rattle.move_lifting.specs.declared.expanding.TheConstants.{MOST_LIFTED_DARTS};
ghost use Rattle.move_lifting.specs.TurnPeaks.{KeepsBound};

use crate::cut::Cut;
use crate::looping::{Looper, Looping};
use crate::reducing::Reduction;
use crate::track::Track;
use spoke_paths::{PathStep, take_step};
use std::alloc::{AllocError, Global};

/// Contracts a closed walk to its start, with `behind` entries behind it, where the steps leave nothing of its spokes.
///
/// Up to spurs the walk is the loop of its spokes, before and after each step on them. So a walk without spurs, of which no
/// spokes are left, is one vertex; where it is one before, the other steps need no moves.
pub(crate) fn contract(
    alloc: Global,
    cut: &Cut<'_>,
    reduction: Reduction,
    track: Track,
    behind: u32,
) -> Result<Track, AllocError>
    requires cut { IsCut cut.now }
    requires reduction { LeavesNothing cut.now.polygon.now reduction }
    requires led { IsLedFrom cut.now.on.surface.now.mesh behind track.walk track.list }
    requires closed { last_of track.walk ≡ slice_index track.walk 0 }
    requires no_spur { HasNoSpur track.walk }
    requires spokes { IsFreelyPath cut.now.on.surface.now cut.now.on.split.now cut.now.polygon.now reduction.spokes.items track.walk }
    requires few { length reduction.spokes.items ≤ 2 * MOST_LIFTED_DARTS }
    requires behind { behind ≤ MOST_LIFTED_DARTS }
    ensures leads { IfOk result (λ after. GoesOn cut.now.on.surface.now.mesh behind track.walk track.list after.walk after.list) }
    ensures nothing { IfOk result (λ after. after.walk ≡ slice_index track.walk 0 ∷ []) }
    ensures peak { IfOk result (λ after. (pairs : ℕ) → length reduction.spokes.items ≤ 2 * pairs
        → KeepsBound (darts_of cut.now.on.surface.now) behind (pairs + 1) track.list.peak after.list.peak) }
{
    let looping = Looping { alloc, cut, behind };
    let mut looper = Looper::new(alloc);
    let Reduction {
        wheel,
        spokes: mut path,
        steps,
    } = reduction;
    let mut track = track;
    for step in &steps {
        if track.is_one_vertex() {
            return Ok(track);
        }
        track = follow(&looping, &mut looper, track, &path, *step)?;
        take_step(&wheel, &mut path, *step);
    }
    Ok(track)
}

/// Follows a step on the spokes of a closed walk: a turn across the quad of the last side puts the loop of that side in,
/// and after every other step the walk is what it was.
fn follow(
    looping: &Looping<'_>,
    looper: &mut Looper,
    track: Track,
    path: &[u32],
    step: PathStep,
) -> Result<Track, AllocError>
    requires looping { IsLooping looping.now }
    requires looper { IsLooper looping.now.cut.now.on.surface.now looping.now.cut.now.on.split.now looping.now.cut.now.polygon.now
        looper.old }
    requires below { All (λ spoke. spoke < looping.now.cut.now.polygon.now.degree) path.now }
    requires allowed { (next : List ℕ) × (after_path_step looping.now.cut.now.polygon.now.places step path.now ≡ Some next) }
    requires walk { IsWalk looping.now.cut.now.on.surface.now.mesh track.walk }
    requires closed { last_of track.walk ≡ slice_index track.walk 0 }
    requires no_spur { HasNoSpur track.walk }
    requires spokes { IsFreelyPath looping.now.cut.now.on.surface.now looping.now.cut.now.on.split.now
        looping.now.cut.now.polygon.now path.now track.walk }
    requires few { length path.now ≤ 2 * MOST_LIFTED_DARTS }
    ensures looper { OnOk result
        (IsLooper looping.now.cut.now.on.surface.now looping.now.cut.now.on.split.now looping.now.cut.now.polygon.now looper.new) }
    ensures leads { IfOk result (λ after. GoesOn looping.now.cut.now.on.surface.now.mesh looping.now.behind track.walk track.list
        after.walk after.list) }
    ensures no_spur { IfOk result (λ after. HasNoSpur after.walk) }
    ensures some { IfOk result (λ after. 0 < length after.walk) }
    ensures starts { IfOk result (λ after. slice_index after.walk 0 ≡ slice_index track.walk 0) }
    ensures last { IfOk result (λ after. last_of after.walk ≡ last_of track.walk) }
    ensures spokes { IfOk result (λ after. (next : List ℕ)
        → after_path_step looping.now.cut.now.polygon.now.places step path.now ≡ Some next
        → IsFreelyPath looping.now.cut.now.on.surface.now looping.now.cut.now.on.split.now looping.now.cut.now.polygon.now next
        after.walk) }
    ensures peak { IfOk result (λ after. (pairs : ℕ) → length path.now ≤ 2 * pairs
        → KeepsBound (darts_of looping.now.cut.now.on.surface.now) looping.now.behind (pairs + 1) track.list.peak after.list.peak) }
{
    let PathStep::Turn {
        at,
        side,
        partner,
        up,
    } = step
    else {
        return Ok(track);
    };
    let cut = looping.cut;
    let last = cut.polygon.degree() - 1;
    if side != last && partner != last {
        return Ok(track);
    }
    let front = front_of_loop(looping.alloc, last, path, at, Quad { side, partner })?;
    looping.put_loop(looper, track, &front, up)
}

/// The two sides that a quad belongs to.
#[derive(Clone, Copy)]
struct Quad {
    side: u32,
    partner: u32,
}

/// The spokes behind which a turn across the quad of the last side puts the loop in: those before its place, and where the
/// loop starts further on, those of one way round the quad that lead there.
fn front_of_loop(
    alloc: Global,
    last: u32,
    path: &[u32],
    at: u32,
    quad: Quad,
) -> Result<Vec<u32>, AllocError>
    requires within { at ≤ length path.now }
    requires side { quad.side + 1 < 2 ^ 32 }
    requires partner { quad.partner + 1 < 2 ^ 32 }
    ensures { IfOk result (λ front. front.items ≡ spokes_in_front last path.now at quad.side quad.partner) }
{
    let Quad { side, partner } = quad;
    let mut front = Vec::from_slice(alloc, &path[..at as usize])?;
    match (side == last, at % 2 == 0) {
        (true, true) => {}
        (true, false) => front.push(partner + 1)?,
        (false, true) => {
            front.push(side)?;
            front.push(side + 1)?;
        }
        (false, false) => front.push(last)?,
    }
    Ok(front)
}
