//! A walk that is laid vertex by vertex, without spurs, and the moves that led to it.
ghost use Rattle.std.specs.Prelude.{◌≡◌, ◌+◌, ◌-◌, ◌<◌, ◌≤◌, ◌^◌, ◌↔◌, [], ◌∷◌, ◌++◌, max, length, take, slice_index, IfOk, OnOk, IsTrue};
ghost use Rattle.surf_model.specs.FaceLists.{FaceList};
ghost use Rattle.surf_model.specs.FreeWalks.{AreFreelyEqual, HasNoSpur};
ghost use Rattle.surf_model.specs.Vertices.{numbers};
ghost use Rattle.surf_model.specs.Walks.{darts};
ghost use Rattle.move_lifting.specs.Lifts.{MoreRemove};
ghost use Rattle.move_lifting.specs.Tracks.{GoesOn, IsStepBack, IsNextPut, GrowsOrShrinks, last_of};

use crate::lifted::Lifted;
use crate::pooled_walk::PooledWalk;
use std::alloc::{AllocError, Global};
use std::marker::Model;
use surf_model::{Move, MoveList, VertexName, Walk};

/// The part of a walk that is laid, and the moves so far. What stands behind that part is the caller's to know.
///
/// The vertices lie in cells that were reserved before, so that only the moves take memory, as they are noted.
#[derive(Drop)]
pub(crate) struct Track {
    laid: PooledWalk,
    moves: MoveList,
}

impl Model for Track {
    ghost use Rattle.move_lifting.specs.Tracks.{TrackView};

    ghost Value = { TrackView };

    ghost view = { λ a. record { walk = a.laid.walk; list = a.moves; spare = a.laid.spare } };
}

impl Track {
    /// The track of one vertex, with cells for so many more, and the moves that led to it.
    pub(crate) fn start(
        alloc: Global,
        start: VertexName,
        more: u32,
        moves: MoveList,
    ) -> Result<Track, AllocError>
        requires { more + 2 < 2 ^ 32 }
        ensures { IfOk result (λ track. track ≡ record { walk = start.0 ∷ []; list = moves; spare = more }) }
    {
        let laid = PooledWalk::start(alloc, start, more)?;
        Ok(Track { laid, moves })
    }

    /// The track of a walk whose spurs are taken out in place, with `behind` entries behind it, by moves that come after those
    /// that led to it. Only the moves take memory.
    pub(crate) fn reduced(
        laid: PooledWalk,
        behind: u32,
        moves: MoveList,
    ) -> Result<Track, AllocError>
        requires some { 0 < length laid.walk }
        requires room { length laid.walk + behind < 2 ^ 31 }
        ensures leads { IfOk result (λ track. (mesh : FaceList) → GoesOn mesh behind laid.walk moves track.walk track.list) }
        ensures freely { IfOk result (λ track. (mesh : FaceList) → AreFreelyEqual mesh laid.walk track.walk) }
        ensures no_spur { IfOk result (λ track. HasNoSpur track.walk) }
        ensures last { IfOk result (λ track. last_of track.walk ≡ last_of laid.walk) }
        ensures some { IfOk result (λ track. 0 < length track.walk) }
        ensures few { IfOk result (λ track. length track.walk ≤ length laid.walk) }
        ensures peak { IfOk result (λ track. track.list.peak ≤ max moves.peak (darts laid.walk + behind)) }
    {
        let entries = laid.len();
        let mut track = Track { laid, moves };
        let mut front = 1;
        for _read in 1..entries {
            front = track.put_next(front, behind)?;
        }
        Ok(track)
    }

    /// Goes on to the entry behind the first `front` ones, which have no spur, with `behind` entries behind the walk. Where that
    /// leads straight back, the spur is taken out. The result is how many entries are in front then.
    fn put_next(&mut self, front: u32, behind: u32) -> Result<u32, AllocError>
        requires some { 0 < front }
        requires next { front < length self.old.walk }
        requires room { length self.old.walk + behind < 2 ^ 31 }
        requires no_spur { HasNoSpur (take front self.old.walk) }
        ensures { IfOk result (λ now. IsNextPut behind self.old front self.new now) }
    {
        if !self.leads_back(front) {
            return Ok(front + 1);
        }
        let at = front - 2;
        let via = self.laid.at(front - 1);
        self.moves
            .push(Move::Remove { at, via }, self.laid.len() - 3 + behind)?;
        self.laid.cut(front - 1, front + 1);
        Ok(front - 1)
    }

    /// Whether the entry behind the first `front` ones leads straight back to the one before their last.
    fn leads_back(&mut self, front: u32) -> bool
        requires { front < length self.old.walk }
        ensures back { IsTrue result
            ↔ ((1 < front) × (slice_index self.old.walk (front - 2) ≡ slice_index self.old.walk front)) }
        ensures same { self.new ≡ self.old }
    {
        let next = self.laid.read(front);
        front > 1 && self.laid.at(front - 2) == next
    }

    /// Makes room, so that at least so many more vertices can be laid.
    pub(crate) fn reserve(&mut self, more: u32) -> Result<(), AllocError>
        requires { length self.old.walk + more + 1 < 2 ^ 32 }
        ensures { OnOk result (self.new ≡ record self.old { spare = max more self.old.spare }) }
    {
        self.laid.reserve(more)
    }

    /// Goes on to the vertex that stands next in the walk, with `behind` entries behind it. Where that leads straight
    /// back, the spur is taken out.
    pub(crate) fn put(&mut self, next: VertexName, behind: u32) -> Result<(), AllocError>
        requires no_spur { HasNoSpur self.old.walk }
        requires room { length self.old.walk + behind < 2 ^ 31 }
        requires spare { 0 < self.old.spare }
        ensures leads { OnOk result ((mesh : FaceList)
            → GoesOn mesh behind (self.old.walk ++ next.0 ∷ []) self.old.list self.new.walk self.new.list) }
        ensures no_spur { OnOk result (HasNoSpur self.new.walk) }
        ensures more { OnOk result (MoreRemove self.old.list.moves self.new.list.moves) }
        ensures long { OnOk result (length self.new.walk ≤ length self.old.walk + 1) }
        ensures some { OnOk result (0 < length self.new.walk) }
        ensures last { OnOk result (last_of self.new.walk ≡ next.0) }
        ensures shape { OnOk result (GrowsOrShrinks self.old.walk self.new.walk next.0) }
        ensures cells { OnOk result (length self.new.walk + self.new.spare ≡ length self.old.walk + self.old.spare) }
        ensures peak { OnOk result (self.new.list.peak ≤ max self.old.list.peak (length self.old.walk + behind)) }
        ensures count { OnOk result (length self.new.list.moves + length self.new.walk
            ≤ length self.old.list.moves + length self.old.walk + 1) }
    {
        if self.came_from(next) {
            return self.step_back(behind);
        }
        self.laid.push(next);
        Ok(())
    }

    /// Whether the vertex before the last one is this one.
    fn came_from(&self, vertex: VertexName) -> bool
        ensures { IsTrue result ↔ ((1 < length self.now.walk) × (slice_index self.now.walk (length self.now.walk - 2) ≡ vertex.0)) }
    {
        let vertices = self.laid.len();
        vertices > 1 && self.laid.at(vertices - 2) == vertex
    }

    /// Takes out the spur that a step back to the vertex before the last one makes, with `behind` entries behind that step.
    fn step_back(&mut self, behind: u32) -> Result<(), AllocError>
        requires some { 1 < length self.old.walk }
        requires room { length self.old.walk + behind < 2 ^ 31 }
        ensures back { OnOk result (IsStepBack behind self.old self.new) }
        ensures spare { OnOk result (self.new.spare ≡ self.old.spare + 1) }
    {
        let place = self.laid.len() - 1;
        let at = place - 1;
        let via = self.laid.at(place);
        self.moves.push(Move::Remove { at, via }, at + behind)?;
        self.laid.cut(place, place + 1);
        Ok(())
    }

    /// Whether the walk is one vertex.
    pub(crate) fn is_one_vertex(&self) -> bool
        ensures { IsTrue result ↔ (length self.now.walk ≡ 1) }
    {
        self.laid.len() == 1
    }

    /// The last vertex.
    pub(crate) fn last(&self) -> VertexName
        ensures vertex { result.0 ≡ last_of self.now.walk }
        // What holds of every track.
        ensures starts { 0 < length self.now.walk }
    {
        self.laid.at(self.laid.len() - 1)
    }

    /// The first vertex.
    pub(crate) fn first(&self) -> VertexName
        ensures { result.0 ≡ slice_index self.now.walk 0 }
    {
        self.laid.first()
    }

    /// The place of the last vertex in the walk.
    pub(crate) fn place(&self) -> u32
        requires { length self.now.walk < 2 ^ 31 }
        ensures { result ≡ darts self.now.walk }
    {
        self.laid.len() - 1
    }

    /// Notes a move that leaves what is laid, and `behind` entries behind it.
    pub(crate) fn note(&mut self, mv: Move, behind: u32) -> Result<(), AllocError>
        requires { length self.old.walk + behind < 2 ^ 31 }
        ensures walk { OnOk result (self.new.walk ≡ self.old.walk) }
        ensures list { OnOk result (self.new.list
            ≡ record { moves = self.old.list.moves ++ mv ∷ []; peak = max self.old.list.peak (darts self.old.walk + behind) }) }
        ensures spare { OnOk result (self.new.spare ≡ self.old.spare) }
    {
        let darts = self.laid.len() - 1 + behind;
        self.moves.push(mv, darts)
    }

    /// The moves.
    pub(crate) fn into_moves(self) -> MoveList
        ensures { result ≡ self.list }
    {
        let Track { laid: _, moves } = self;
        moves
    }

    /// The walk that is laid, in its cells, and the moves.
    pub(crate) fn into_laid(self) -> (PooledWalk, MoveList)
        ensures walk { result.0 ≡ record { walk = self.walk; spare = self.spare } }
        ensures list { result.1 ≡ self.list }
    {
        let Track { laid, moves } = self;
        (laid, moves)
    }

    /// The vertices that are laid, and the moves.
    pub(crate) fn into_parts(self, alloc: Global) -> Result<(Vec<VertexName>, MoveList), AllocError>
        ensures vertices { IfOk result (λ parts. numbers parts.0.items ≡ self.walk) }
        ensures moves { IfOk result (λ parts. parts.1 ≡ self.list) }
    {
        let Track { mut laid, moves } = self;
        let mut walk = Vec::new(alloc);
        let vertices = laid.len();
        for place in 0..vertices {
            walk.push(laid.read(place))?;
        }
        Ok((walk, moves))
    }

    /// The walk that is laid, with the moves.
    pub(crate) fn finish(self, alloc: Global) -> Result<Lifted, AllocError>
        requires { length self.walk ≤ 2 ^ 31 }
        ensures { IfOk result (λ lifted. lifted ≡ record { walk = self.walk; moves = self.list }) }
    {
        let Track { mut laid, moves } = self;
        let vertices = laid.len();
        let mut walk = Walk::new(alloc, laid.read(0))?;
        for place in 1..vertices {
            walk.push(laid.read(place))?;
        }
        Ok(Lifted { walk, moves })
    }
}
