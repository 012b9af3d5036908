//! The loop of the last side of a polygon, put into walks.
ghost use Rattle.std.specs.Prelude.{◌≡◌, ◌<◌, ◌≤◌, ◌^◌, ◌∷◌, ◌++◌, ℕ, List, true, if◌then◌else◌, length, slice_index, IfOk, IfSome, OnOk, All};
ghost use Rattle.surf_model.specs.FaceLists.{FaceList, is_used};
ghost use Rattle.surf_model.specs.FreeWalks.{AreFreelyEqual, HasNoSpur};
ghost use Rattle.surf_model.specs.Vertices.{numbers};
ghost use Rattle.surf_model.specs.Walks.{IsWalk};
ghost use Rattle.tree_cotree.specs.Splits.{IsSplit};
ghost use Rattle.halfedge_map.specs.DartMaps.{darts_of};
ghost use Rattle.halfedge_map.specs.OrientedMeshes.{OrientedMesh};
ghost use Rattle.tree_cotree.specs.Splits.{SplitView};
ghost use Rattle.polygon_cut.specs.Polygons.{PolygonView};
ghost use Rattle.polygon_cut.specs.ShortWalks.{AreShortAround};
ghost use Rattle.polygon_cut.specs.SpokeLoops.{AreWaysUp, backward};
ghost use Rattle.move_lifting.specs.Cuts.{IsCut};
ghost use Rattle.move_lifting.specs.LoopsPutIn.{HasLoopIn, IsFreelyPath};
ghost use Rattle.move_lifting.specs.SpokeWalks.{AreLoopTurns, HasWalk, IsLooper, IsLooping, along_or_back, walks_loop};
ghost use Rattle.move_lifting.specs.Tracks.{GoesOn, last_of};
ghost use Rattle.move_lifting.specs.declared.expanding.TheConstants.{MOST_LIFTED_DARTS};
ghost use Rattle.move_lifting.specs.TurnPeaks.{GoesInShortly, KeepsBound};

use crate::cut::Cut;
use crate::inserting::{back_along, put_turn};
use crate::last_loop::last_loop;
use crate::laying::{put_all, walk_of_one};
use crate::lifted::Lifted;
use crate::spoke_walks::SpokeWalks;
use crate::track::Track;
use crate::tree_way::put_over;
use std::alloc::{AllocError, Global};
use surf_model::VertexName;

/// The loop of the last side of a polygon, and the way back along it.
#[derive(Drop)]
pub(crate) struct Turns {
    forth: Lifted,
    back: Lifted,
}

impl Turns {
    /// Makes them.
    fn of(alloc: Global, cut: &Cut<'_>) -> Result<Turns, AllocError>
        requires { IsCut cut.now }
        ensures { IfOk result (AreLoopTurns cut.now.on.surface.now cut.now.on.split.now cut.now.polygon.now) }
    {
        Ok(Turns {
            forth: last_loop(alloc, cut, false)?,
            back: last_loop(alloc, cut, true)?,
        })
    }

    /// The loop of the last side, or if `up` the way back along it.
    fn turn(&self, up: bool) -> &Lifted
        ensures { result.now ≡ (if up then self.now.back else self.now.forth) }
    {
        if up { &self.back } else { &self.forth }
    }
}

/// What is made for a polygon so that the loop of its last side can be put into walks: each part of it when it is wanted first.
#[derive(Drop)]
pub(crate) struct Looper {
    spokes: SpokeWalks,
    turns: Option<Turns>,
}

impl Looper {
    /// Nothing is made yet. It takes no memory.
    pub(crate) fn new(alloc: Global) -> Looper
        ensures { (surface : OrientedMesh) (split : SplitView) (polygon : PolygonView) → IsLooper surface split polygon result }
    {
        Looper {
            spokes: SpokeWalks::new(alloc),
            turns: None,
        }
    }

    /// The loop of the last side and the way back along it, which are made if they were not. They are the caller's then.
    fn take_turns(&mut self, alloc: Global, cut: &Cut<'_>) -> Result<Turns, AllocError>
        requires cut { IsCut cut.now }
        requires turns { IfSome self.old.turns (AreLoopTurns cut.now.on.surface.now cut.now.on.split.now cut.now.polygon.now) }
        ensures turns { IfOk result (AreLoopTurns cut.now.on.surface.now cut.now.on.split.now cut.now.polygon.now) }
        ensures kept { self.new.spokes ≡ self.old.spokes }
    {
        match self.turns.take() {
            Some(turns) => Ok(turns),
            None => Turns::of(alloc, cut),
        }
    }
}

/// A cut surface, and how many entries stand behind the closed walk that loops are put into.
#[derive(Drop)]
pub(crate) struct Looping<'a> {
    pub(crate) alloc: Global,
    pub(crate) cut: &'a Cut<'a>,
    pub(crate) behind: u32,
}

impl Looping<'_> {
    /// Puts the loop of the last side, or if `up` the way back along it, into the closed walk of a track: behind the spokes in
    /// front, by way of the tree.
    pub(crate) fn put_loop(
        &self,
        looper: &mut Looper,
        track: Track,
        front: &[u32],
        up: bool,
    ) -> Result<Track, AllocError>
        requires looping { IsLooping self.now }
        requires looper { IsLooper self.now.cut.now.on.surface.now self.now.cut.now.on.split.now self.now.cut.now.polygon.now looper.old }
        requires front { All (λ spoke. spoke < self.now.cut.now.polygon.now.degree) front.now }
        requires walk { IsWalk self.now.cut.now.on.surface.now.mesh track.walk }
        requires closed { last_of track.walk ≡ slice_index track.walk 0 }
        requires no_spur { HasNoSpur track.walk }
        requires short { GoesInShortly self.now.cut.now.on.surface.now self.now.cut.now.on.split.now self.now.cut.now.polygon.now
            front.now track.walk MOST_LIFTED_DARTS }
        ensures looper { OnOk result
            (IsLooper self.now.cut.now.on.surface.now self.now.cut.now.on.split.now self.now.cut.now.polygon.now looper.new) }
        ensures leads { IfOk result (λ after. GoesOn self.now.cut.now.on.surface.now.mesh self.now.behind track.walk track.list
            after.walk after.list) }
        ensures freely { IfOk result (λ after. HasLoopIn self.now.cut.now.on.surface.now self.now.cut.now.on.split.now
            self.now.cut.now.polygon.now front.now up track.walk after.walk) }
        ensures no_spur { IfOk result (λ after. HasNoSpur after.walk) }
        ensures last { IfOk result (λ after. last_of after.walk ≡ last_of track.walk) }
        ensures some { IfOk result (λ after. 0 < length after.walk) }
        ensures few { IfOk result (λ after. length after.walk < 2 ^ 31) }
        ensures peak { IfOk result (λ after. (path : List ℕ) (pairs : ℕ)
            → IsFreelyPath self.now.cut.now.on.surface.now self.now.cut.now.on.split.now self.now.cut.now.polygon.now path track.walk
            → AreShortAround self.now.cut.now.on.surface.now self.now.cut.now.on.split.now self.now.cut.now.polygon.now front.now path pairs
            → KeepsBound (darts_of self.now.cut.now.on.surface.now) self.now.behind pairs track.list.peak after.list.peak) }
    {
        let (alloc, cut) = (self.alloc, self.cut);
        let (surface, polygon) = (cut.on.surface, cut.polygon);
        looper.spokes.make(alloc, cut, front)?;
        let turns = looper.take_turns(alloc, cut)?;
        let end = surface.origin(polygon.side(polygon.degree() - 1));
        let approach = self.approach_of(&looper.spokes, track.first(), front, end)?;
        let after = put_turn(alloc, track, &approach, turns.turn(up), self.behind)?;
        looper.turns = Some(turns);
        Ok(after)
    }

    /// From a vertex up the tree, down the tree to another vertex, and along walks of spokes there, without spurs.
    fn approach_of(
        &self,
        spokes: &SpokeWalks,
        start: VertexName,
        front: &[u32],
        end: VertexName,
    ) -> Result<Vec<VertexName>, AllocError>
        requires split { IsSplit self.now.cut.now.on.surface.now self.now.cut.now.on.split.now }
        requires front { All (HasWalk spokes.now) front.now }
        requires start { is_used self.now.cut.now.on.surface.now.mesh start.0 ≡ true }
        requires end { is_used self.now.cut.now.on.surface.now.mesh end.0 ≡ true }
        ensures freely { IfOk result (λ walk. (root : ℕ) (ways : ℕ → List ℕ)
            → AreWaysUp self.now.cut.now.on.surface.now self.now.cut.now.on.split.now root ways
            → AreFreelyEqual self.now.cut.now.on.surface.now.mesh
            (start.0 ∷ (ways start.0 ++ (backward end.0 (ways end.0) ++ walks_loop spokes.now true front.now)))
            (numbers walk.items)) }
        ensures no_spur { IfOk result (λ walk. HasNoSpur (numbers walk.items)) }
    {
        let mut walk = walk_of_one(self.alloc, start)?;
        put_over(self.alloc, &self.cut.on, &mut walk, start, end)?;
        put_spokes(self.alloc, &mut walk, spokes, front)?;
        Ok(walk)
    }
}

/// Goes on along the walks of spokes, there along the first, back along the second, and so on, without spurs.
fn put_spokes(
    alloc: Global,
    walk: &mut Vec<VertexName>,
    spokes: &SpokeWalks,
    front: &[u32],
) -> Result<(), AllocError>
    requires some { 0 < length walk.old.items }
    requires no_spur { HasNoSpur (numbers walk.old.items) }
    requires front { All (HasWalk spokes.now) front.now }
    ensures some { OnOk result (0 < length walk.new.items) }
    ensures no_spur { OnOk result (HasNoSpur (numbers walk.new.items)) }
    ensures freely { OnOk result ((mesh : FaceList)
        → AreFreelyEqual mesh (numbers walk.old.items ++ walks_loop spokes.now true front.now) (numbers walk.new.items)) }
{
    let mut along = true;
    for spoke in front {
        put_spoke(alloc, walk, spokes.get(*spoke), along)?;
        along = !along;
    }
    Ok(())
}

/// Goes on along a walk that is kept backward, or back along it, without spurs.
fn put_spoke(
    alloc: Global,
    walk: &mut Vec<VertexName>,
    spoke: &[VertexName],
    along: bool,
) -> Result<(), AllocError>
    requires some { 0 < length walk.old.items }
    requires no_spur { HasNoSpur (numbers walk.old.items) }
    requires spoke { 0 < length spoke.now }
    ensures some { OnOk result (0 < length walk.new.items) }
    ensures no_spur { OnOk result (HasNoSpur (numbers walk.new.items)) }
    ensures freely { OnOk result ((mesh : FaceList)
        → AreFreelyEqual mesh (numbers walk.old.items ++ along_or_back along (numbers spoke.now)) (numbers walk.new.items)) }
{
    if along {
        let there = back_along(alloc, spoke)?;
        put_all(walk, &there)
    } else {
        put_all(walk, &spoke[1..])
    }
}
