//! Lists of moves from one walk to another.
ghost use Rattle.std.specs.Prelude.{◌≡◌, ◌+◌, ◌*◌, ◌<◌, ◌≤◌, ◌^◌, ℕ, List, ◌++◌, length, max, drop, slice_index, IfOk, IfSome, OnOk, MatchOption};
ghost use Rattle.surf_model.specs.FaceLists.{FaceList};
ghost use Rattle.surf_model.specs.Moves.{Homotopic};
ghost use Rattle.surf_model.specs.Vertices.{numbers};
ghost use Rattle.surf_model.specs.Walks.{IsWalk, HaveCommonEnds, darts, AreWalkPair};
ghost use Rattle.halfedge_map.specs.DartMaps.{darts_of};
ghost use Rattle.halfedge_map.specs.OrientedMeshes.{IsOrientedSurface};
ghost use Rattle.tree_cotree.specs.Splits.{IsSplit};
ghost use Rattle.polygon_cut.specs.Polygons.{IsCutFrom};
ghost use Rattle.surf_model.specs.FreeWalks.{HasNoSpur};
ghost use Rattle.move_lifting.specs.Cuts.{IsSplitSurface};
ghost use Rattle.move_lifting.specs.Lifts.{HasLowPeak, IsShortList, LeadsAtPeak};
ghost use Rattle.move_lifting.specs.Tracks.{last_of};
ghost use Rattle.move_lifting.specs.declared.expanding.TheConstants.{MOST_LIFTED_SIDES, MOST_LIFTED_DARTS};

use crate::contracting::contract;
use crate::cut::{Cut, SplitSurface};
use crate::expanding::{MOST_LIFTED_SIDES, vertices_of};
use crate::inserting::reduce_all;
use crate::passing::lead_in_passes;
use crate::reducing::Reduction;
use crate::track::Track;
use common_ends::CommonDarts;
use halfedge_map::Surface;
use polygon_cut::Polygon;
use std::alloc::{AllocError, Global};
use surf_model::{Move, MoveList, VertexName, Walk};
use tree_cotree::Split;

/// A list of moves from the first walk to the second; none where there is no such list.
///
/// What both walks begin with and end with stays as it is. Of what is between, the second part comes behind the first,
/// backward and forward, and the spurs of that are taken out. Then the closed walk that goes along the first and back along
/// the second is contracted to its start, if that is not all of it yet, and the second walk behind it is left: it is led off
/// the cotree, and follows the steps that leave nothing of its spokes. The steps leave something exactly where the walks are
/// not homotopic. On a sphere there are no spokes, and off the cotree nothing but the tree is left to go along.
pub fn lift(
    alloc: Global,
    surface: &Surface,
    split: &Split,
    polygon: &Polygon,
    first: &Walk,
    second: &Walk,
) -> Result<Option<MoveList>, AllocError>
    requires split { IsSplit surface.now split.now }
    requires cut { IsCutFrom surface.now split.now polygon.now }
    requires first { IsWalk surface.now.mesh first.now }
    requires second { IsWalk surface.now.mesh second.now }
    requires ends { HaveCommonEnds first.now second.now }
    requires sides { darts_of surface.now ≤ MOST_LIFTED_SIDES }
    requires few { darts first.now + darts second.now ≤ MOST_LIFTED_DARTS }
    ensures list { IfOk result (λ found. MatchOption found
        (Homotopic surface.now.mesh first.now second.now → ⊥)
        (λ list. LeadsAtPeak surface.now.mesh first.now list second.now)) }
    ensures low { IfOk result (λ found. IfSome found (HasLowPeak (darts_of surface.now) (darts first.now + darts second.now))) }
    ensures short { polygon.now.degree ≡ 0 → IfOk result (λ found. MatchOption found ⊥
        (IsShortList (darts_of surface.now) (darts first.now + darts second.now))) }
{
    let sides = surface.darts();
    prove!(sides <= MOST_LIFTED_SIDES);
    let common = CommonDarts::of(first, second);
    let first = common.between(alloc, first)?;
    let second = common.between(alloc, second)?;
    let on = SplitSurface { surface, split };
    match lift_between(alloc, &on, polygon, &first, &second)? {
        Some(list) => {
            let whole = common.put_back(alloc, list)?;
            Ok(Some(whole))
        }
        None => Ok(None),
    }
}

/// A list of moves from the first walk to the second, by the closed walk along them; none where there is no such list.
fn lift_between(
    alloc: Global,
    on: &SplitSurface<'_>,
    polygon: &Polygon,
    first: &Walk,
    second: &Walk,
) -> Result<Option<MoveList>, AllocError>
    requires valid { IsOrientedSurface on.now.surface.now }
    requires on { IsSplitSurface on.now }
    requires cut { IsCutFrom on.now.surface.now on.now.split.now polygon.now }
    requires walks { AreWalkPair on.now.surface.now.mesh first.now second.now }
    requires few { darts first.now + darts second.now ≤ MOST_LIFTED_DARTS }
    ensures list { IfOk result (λ found. MatchOption found
        (Homotopic on.now.surface.now.mesh first.now second.now → ⊥)
        (λ list. LeadsAtPeak on.now.surface.now.mesh first.now list second.now)) }
    ensures low { IfOk result (λ found. IfSome found
        (HasLowPeak (darts_of on.now.surface.now) (darts first.now + darts second.now))) }
    ensures short { polygon.now.degree ≡ 0 → IfOk result (λ found. MatchOption found ⊥
        (IsShortList (darts_of on.now.surface.now) (darts first.now + darts second.now))) }
{
    let behind = second.darts();
    let joined = close(alloc, first, second)?;
    let (closed, moves) = joined.into_parts(alloc)?;
    if closed.len() == 1 {
        return Ok(Some(moves));
    }
    if polygon.degree() == 0 {
        let tree = lead_in_passes(alloc, on, closed, behind, moves)?;
        return Ok(Some(tree.into_moves()));
    }
    let reduction = Reduction::of(alloc, on.surface, polygon, &closed)?;
    if !reduction.leaves_nothing() {
        return Ok(None);
    }
    let begun = lead_in_passes(alloc, on, closed, behind, moves)?;
    let cut = Cut { on: *on, polygon };
    let contracted = contract(alloc, &cut, reduction, begun, behind)?;
    let list = contracted.into_moves();
    Ok(Some(list))
}

/// The closed walk along the first walk and back along the second, without spurs, and the moves that lead from the first
/// walk to it with the second behind it.
fn close(alloc: Global, first: &Walk, second: &Walk) -> Result<Track, AllocError>
    requires ends { HaveCommonEnds first.now second.now }
    requires few { darts first.now + darts second.now ≤ MOST_LIFTED_DARTS }
    ensures leads { IfOk result (λ closed. (mesh : FaceList) → IsWalk mesh second.now
        → LeadsAtPeak mesh first.now closed.list (closed.walk ++ drop 1 second.now)) }
    ensures no_spur { IfOk result (λ closed. HasNoSpur closed.walk) }
    ensures last { IfOk result (λ closed. last_of closed.walk ≡ slice_index second.now 0) }
    ensures some { IfOk result (λ closed. 0 < length closed.walk) }
    ensures few { IfOk result (λ closed. length closed.walk ≤ MOST_LIFTED_DARTS + 1) }
    ensures long { IfOk result (λ closed. darts closed.walk ≤ darts first.now + darts second.now) }
    ensures peak { IfOk result (λ closed. closed.list.peak ≤ darts first.now + 2 * darts second.now) }
    ensures count { IfOk result (λ closed. length closed.list.moves + darts closed.walk ≤ darts first.now + 2 * darts second.now) }
{
    let behind = second.darts();
    let mut closed = vertices_of(alloc, first)?;
    let mut moves = MoveList::new(alloc, first.darts());
    append_back(&mut closed, &mut moves, second)?;
    reduce_all(alloc, &closed, behind, moves)
}

/// Goes back along a walk from its end, which the vertices end at, so that all of the walk comes behind them, and notes
/// the moves.
fn append_back(
    vertices: &mut Vec<VertexName>,
    moves: &mut MoveList,
    walk: &Walk,
) -> Result<(), AllocError>
    requires some { 0 < length vertices.old.items }
    requires last { last_of (numbers vertices.old.items) ≡ last_of walk.now }
    requires room { length vertices.old.items + 2 * length walk.now < 2 ^ 31 }
    ensures long { OnOk result (length vertices.new.items ≡ length vertices.old.items + darts walk.now) }
    ensures last { OnOk result (last_of (numbers vertices.new.items) ≡ slice_index walk.now 0) }
    ensures leads { OnOk result ((mesh : FaceList) (first : List ℕ) → IsWalk mesh walk.now
        → LeadsAtPeak mesh first moves.old (numbers vertices.old.items)
        → LeadsAtPeak mesh first moves.new (numbers vertices.new.items ++ drop 1 walk.now)) }
    ensures peak { OnOk result (moves.new.peak ≤ max moves.old.peak (darts (numbers vertices.old.items) + 2 * darts walk.now)) }
    ensures count { OnOk result (length moves.new.moves ≡ length moves.old.moves + darts walk.now) }
{
    let darts = walk.darts();
    for done in 0..darts {
        let via = walk.at(darts - done - 1);
        let at = vertices.len() as u32 - 1;
        vertices.push(via)?;
        moves.push(Move::Insert { at, via }, at + 2 + done)?;
    }
    Ok(())
}
