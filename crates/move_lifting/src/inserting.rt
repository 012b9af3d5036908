//! Turns put into walks: there, round, back, and on.
ghost use Rattle.std.specs.Prelude.{◌≡◌, ◌≢◌, ◌+◌, ◌*◌, ◌-◌, ◌<◌, ◌≤◌, ◌^◌, ◌∷◌, [], ◌++◌, ℕ, List, length, max, take, drop, slice_index, IfOk, OnOk};
ghost use Rattle.surf_model.specs.FaceLists.{FaceList};
ghost use Rattle.surf_model.specs.FreeWalks.{AreFreelyEqual, HasNoSpur};
ghost use Rattle.surf_model.specs.Vertices.{numbers};
ghost use Rattle.surf_model.specs.Walks.{IsWalk, darts};
ghost use Rattle.polygon_cut.specs.SpokeLoops.{backward, put_behind};
ghost use Rattle.move_lifting.specs.Lifts.{LeadsAtPeak, MoreRemove};
ghost use Rattle.move_lifting.specs.LoopsPutIn.{IsApproach};
ghost use Rattle.move_lifting.specs.Tracks.{GoesOn, last_of};
ghost use Rattle.move_lifting.specs.TurnPeaks.{RisesWithTurn};

use crate::lifted::Lifted;
use crate::pooled_walk::PooledWalk;
use crate::track::Track;
use common_ends::raise_moves;
use std::alloc::{AllocError, Global};
use surf_model::{Move, MoveList, VertexName};

/// Puts a turn into the walk of a track, with `behind` entries behind it: along the approach from the walk's first vertex,
/// round the turn, back along the approach, and on. The spurs are taken out of the whole.
///
/// The moves build the approach and the way back from where it leaves the walk, and then turn as those of the turn do.
pub(crate) fn put_turn(
    alloc: Global,
    track: Track,
    approach: &[VertexName],
    turn: &Lifted,
    behind: u32,
) -> Result<Track, AllocError>
    requires { IsApproach track.walk turn.now behind approach.now }
    ensures leads { IfOk result (λ after. (mesh : FaceList) → IsWalk mesh (numbers approach.now)
        → LeadsAtPeak mesh (last_of (numbers approach.now) ∷ []) turn.now.moves turn.now.walk
        → GoesOn mesh behind track.walk track.list after.walk after.list) }
    ensures freely { IfOk result (λ after. (mesh : FaceList) → IsWalk mesh (numbers approach.now)
        → AreFreelyEqual mesh (slice_index track.walk 0 ∷ put_behind (slice_index track.walk 0)
        (drop 1 (numbers approach.now)) (drop 1 turn.now.walk) (drop 1 track.walk)) after.walk) }
    ensures no_spur { IfOk result (λ after. HasNoSpur after.walk) }
    ensures last { IfOk result (λ after. last_of after.walk ≡ last_of track.walk) }
    ensures some { IfOk result (λ after. 0 < length after.walk) }
    ensures few { IfOk result (λ after. length after.walk < 2 ^ 31) }
    ensures peak { IfOk result (λ after. (most : ℕ) → turn.now.moves.peak ≤ most → darts turn.now.walk ≤ most
        → HasNoSpur (numbers approach.now) → HasNoSpur track.walk
        → RisesWithTurn (numbers approach.now) track.walk behind most track.list.peak after.list.peak) }
{
    let (mut laid, mut moves) = track.into_laid();
    let common = common_start(approach, &mut laid);
    let back = back_to(alloc, approach, common)?;
    let around = turn.walk.darts();
    // The piece is the approach beyond what is in common, the turn, and the way back, and costs a cell for a while.
    let more = back.len() as u32;
    laid.reserve(around + 2 * more + 1)?;
    let entries = laid.len();
    let after = entries - common as u32 + behind;
    insert_there_and_back(&mut moves, approach, common, after)?;
    let out = approach.len() as u32 - 1;
    raise_moves(&mut moves, &turn.moves, out, out + more + after)?;
    laid.put_in(common as u32, &approach[common..], &turn.walk, &back);
    Track::reduced(laid, behind, moves)
}

/// How many vertices an approach and a walk from its start have in common at the start.
fn common_start(approach: &[VertexName], walk: &mut PooledWalk) -> usize
    requires approach { 0 < length approach.now }
    requires walk { 0 < length walk.old.walk }
    requires starts { slice_index (numbers approach.now) 0 ≡ slice_index walk.old.walk 0 }
    ensures some { 0 < result }
    ensures in_approach { result ≤ length approach.now }
    ensures in_walk { result ≤ length walk.old.walk }
    ensures same { take result (numbers approach.now) ≡ take result walk.old.walk }
    ensures kept { walk.new ≡ walk.old }
    ensures apart { result < length approach.now → result < length walk.old.walk
        → slice_index (numbers approach.now) result ≢ slice_index walk.old.walk result }
{
    let most = approach.len().min(walk.len() as usize);
    for place in 1..most {
        if approach[place] != walk.read(place as u32) {
            return place;
        }
    }
    most
}

/// The way back along a walk to its first `common` vertices, as the vertices behind its end.
fn back_to(alloc: Global, walk: &[VertexName], common: usize) -> Result<Vec<VertexName>, AllocError>
    requires some { 0 < common }
    requires within { common ≤ length walk.now }
    ensures { IfOk result (λ back. numbers back.items
        ≡ backward (last_of (take common (numbers walk.now))) (drop common (numbers walk.now))) }
{
    back_along(alloc, &walk[common - 1..])
}

/// The way back along a walk, as the vertices behind its end.
pub(crate) fn back_along(alloc: Global, walk: &[VertexName]) -> Result<Vec<VertexName>, AllocError>
    requires { 0 < length walk.now }
    ensures { IfOk result (λ back. numbers back.items ≡ backward (slice_index (numbers walk.now) 0) (drop 1 (numbers walk.now))) }
{
    let mut back = Vec::new(alloc);
    for done in 1..walk.len() {
        back.push(walk[walk.len() - done - 1])?;
    }
    Ok(back)
}

/// Notes the moves that go along an approach and back, from the end of its first `common` vertices, where a walk has `after`
/// entries behind these.
fn insert_there_and_back(
    moves: &mut MoveList,
    approach: &[VertexName],
    common: usize,
    after: u32,
) -> Result<(), AllocError>
    requires some { 0 < common }
    requires within { common ≤ length approach.now }
    requires room { 2 * length approach.now + after < 2 ^ 32 }
    ensures leads { OnOk result ((mesh : FaceList) (first rest : List ℕ) → IsWalk mesh (numbers approach.now) → length rest ≡ after
        → LeadsAtPeak mesh first moves.old (take common (numbers approach.now) ++ rest)
        → LeadsAtPeak mesh first moves.new (numbers approach.now
        ++ (backward (last_of (take common (numbers approach.now))) (drop common (numbers approach.now)) ++ rest))) }
    ensures peak { OnOk result (moves.new.peak
        ≤ max moves.old.peak (length approach.now - 1 + (length approach.now - common) + after)) }
{
    let mut behind = after;
    for place in common..approach.len() {
        let at = place as u32 - 1;
        let via = approach[place];
        moves.push(Move::Insert { at, via }, at + 2 + behind)?;
        behind += 1;
    }
    Ok(())
}

/// Takes the spurs out of a walk with `behind` entries behind it, by moves that come after those that led to it.
pub(crate) fn reduce_all(
    alloc: Global,
    walk: &[VertexName],
    behind: u32,
    moves: MoveList,
) -> Result<Track, AllocError>
    requires some { 0 < length walk.now }
    requires room { length walk.now + behind ≤ 2 ^ 31 }
    ensures leads { IfOk result (λ track. (mesh : FaceList) → GoesOn mesh behind (numbers walk.now) moves track.walk track.list) }
    ensures freely { IfOk result (λ track. (mesh : FaceList) → AreFreelyEqual mesh (numbers walk.now) track.walk) }
    ensures no_spur { IfOk result (λ track. HasNoSpur track.walk) }
    ensures last { IfOk result (λ track. last_of track.walk ≡ last_of (numbers walk.now)) }
    ensures some { IfOk result (λ track. 0 < length track.walk) }
    ensures few { IfOk result (λ track. length track.walk ≤ length walk.now) }
    ensures peak { IfOk result (λ track. track.list.peak ≤ max moves.peak (darts (numbers walk.now) + behind)) }
    ensures removals { IfOk result (λ track. MoreRemove moves.moves track.list.moves) }
    ensures count { IfOk result (λ track. length track.list.moves + length track.walk ≤ length moves.moves + length walk.now) }
{
    let mut track = Track::start(alloc, walk[0], walk.len() as u32 - 1, moves)?;
    for place in 1..walk.len() {
        track.put(walk[place], (walk.len() - place - 1) as u32 + behind)?;
    }
    Ok(track)
}
