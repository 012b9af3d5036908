//! A walk that steps change in place.
ghost use Rattle.std.specs.Prelude.{◌≡◌, ◌≤◌, ◌<◌, ◌↔◌, ℕ, List, Some, Ok, Err, IfOk, IsOk, OnOk, OnErr, IsTrue, MatchResult};
ghost use Rattle.chain_pool.specs.Chains.{under};
ghost use Rattle.surf_model.specs.Walks.{darts};
ghost use Rattle.surf_model.specs.FaceLists.{FaceList};
ghost use Rattle.surf_model.specs.Moves.{apply};
ghost use Rattle.surf_model.specs.Edges.{IsTableOf};
ghost use Rattle.surf_model.specs.declared.moves.Move.TheVariants.{Insert, Remove, Across};
ghost use Rattle.move_checker.specs.Refusals.{step_of};
ghost use Rattle.surf_model.specs.declared.limits.TheConstants.{MOST_PEAK};

use crate::edits::{Spot, Way, form_edge, is_on_face, read, replace_sides};
use crate::fault::MoveFault;
use crate::sides::are_sides;
use chain_pool::CellName;
use segmented_pool::{CHAIN, Pool};
use std::alloc::{AllocError, Global};
use std::marker::Model;
use surf_model::{Faces, Move, Sides, VertexName, Walk};

/// The number of entries that a segment of the walk does not pass: a far place costs as much as it and the number of segments.
const SEGMENT: u32 = 1_024;

/// Why a tape cannot start.
#[derive(Clone, Copy, Debug, PartialEq, Eq)]
pub enum TapeFault {
    /// The walk has more darts than the peak.
    OverPeak,
    /// There is no memory for as many darts as the peak.
    OutOfMemory,
}

/// A walk that steps change in place, and its peak: the number of darts that it never passes.
///
/// All memory is taken at the start, so that no step needs any.
#[derive(Drop)]
pub struct Tape {
    pool: Pool,
    chain: CellName,
    peak: u32,
}

impl Model for Tape {
    ghost use Rattle.chain_pool.specs.Chains.{list_of};
    ghost use Rattle.move_checker.specs.Tapes.{PeakedWalk, HasRoom};

    ghost Value = { PeakedWalk };

    ghost view = { λ a. record { walk = list_of a.pool a.chain.0; peak = a.peak; pool = a.pool; chain = a.chain } };

    ghost invariant = { λ a. HasRoom a.pool a.chain a.peak };
}

impl Tape {
    /// Lays a walk on a tape with room for `peak` darts. The error is that the walk has more, or
    /// that there is no memory for so many.
    pub fn start(alloc: Global, walk: &Walk, peak: u32) -> Result<Tape, TapeFault>
        requires { peak ≤ MOST_PEAK }
        ensures walk { IfOk result (λ tape. tape.walk ≡ walk.now) }
        ensures peak { IfOk result (λ tape. tape.peak ≡ peak) }
        ensures over { (result ≡ Err TapeFault.OverPeak) ↔ (peak < darts walk.now) }
    {
        let darts = walk.darts();
        if peak < darts {
            return Err(TapeFault::OverPeak);
        }
        let chain = CHAIN;
        // A walk has one entry more than it has darts.
        let Ok(mut pool) = Pool::start(alloc, peak + 1, SEGMENT) else {
            return Err(TapeFault::OutOfMemory);
        };
        for place in 0..=darts {
            pool.push_after(chain, place, walk.at(place).0);
        }
        Ok(Tape { pool, chain, peak })
    }

    /// Does a move on the walk. The peak stays, and a refused move leaves the tape as it was. No
    /// memory is taken. It costs the way from the last place near by, and the entries that go in or out.
    pub fn step(&mut self, faces: &Faces, sides: &Sides, mv: Move) -> Result<(), MoveFault>
        requires { IsTableOf faces.now sides.now }
        ensures step { MatchResult result
            (λ _. step_of faces.now self.old.peak self.old.walk mv ≡ Ok self.new.walk)
            (λ fault. step_of faces.now self.old.peak self.old.walk mv ≡ Err fault) }
        ensures peak { self.new.peak ≡ self.old.peak }
        ensures refused { OnErr result (self.new ≡ self.old) }
        // The same by the table of moves alone: the walk that the move gives becomes the tape's.
        ensures ok { OnOk result (apply faces.now self.old.walk mv ≡ Some self.new.walk) }
        ensures allowed { IsOk result
            ↔ ((next : List ℕ) × (apply faces.now self.old.walk mv ≡ Some next) × (darts next ≤ self.old.peak)) }
        ensures over { (result ≡ Err MoveFault.OverPeak)
            ↔ ((next : List ℕ) × (apply faces.now self.old.walk mv ≡ Some next) × (self.old.peak < darts next)) }
    {
        self.make(faces, sides, mv)
    }

    /// Does a move by its row of the table.
    fn make(&mut self, faces: &Faces, sides: &Sides, mv: Move) -> Result<(), MoveFault>
        requires { IsTableOf faces.now sides.now }
        ensures step { MatchResult result
            (λ _. step_of faces.now self.old.peak self.old.walk mv ≡ Ok self.new.walk)
            (λ fault. step_of faces.now self.old.peak self.old.walk mv ≡ Err fault) }
        ensures peak { self.new.peak ≡ self.old.peak }
        ensures refused { OnErr result (self.new ≡ self.old) }
    {
        match mv {
            Move::Insert { at, via } => self.insert_spur(sides, at, via),
            Move::Remove { at, via } => self.remove_spur(at, via),
            Move::Across {
                at,
                face,
                corner,
                forward,
                taken,
            } => {
                let way = Way {
                    face,
                    corner,
                    forward,
                };
                self.go_across(faces, at, way, taken)
            }
        }
    }

    /// The number of darts of the walk.
    pub fn darts(&self) -> u32
        ensures count { result ≡ darts self.now.walk }
        // What holds of every tape.
        ensures peak { result ≤ self.now.peak }
    {
        self.pool.len(self.chain) - 1
    }

    /// Whether the tape's walk is this walk.
    pub fn equals(&self, walk: &Walk) -> bool
        ensures { IsTrue result ↔ (self.now.walk ≡ walk.now) }
    {
        let darts = walk.darts();
        if self.darts() != darts {
            return false;
        }
        let mut place = 0;
        while place <= darts {
            let (start, halves) = self.pool.around(self.chain, place);
            place = start + (halves.before.len() + halves.behind.len());
            if !are_sides(halves, walk, start) {
                return false;
            }
        }
        true
    }

    /// The pool of cells that keeps the walk.
    pub fn pool(&self) -> &Pool
        ensures pool { result.now ≡ self.now.pool }
        // What holds of every tape.
        ensures walk { under self.now.pool.lists self.now.chain.0 ≡ Some self.now.walk }
    {
        &self.pool
    }

    /// The chain of the pool whose list is the walk.
    pub fn chain(&self) -> CellName
        ensures chain { result ≡ self.now.chain }
        // What holds of every tape.
        ensures walk { under self.now.pool.lists self.now.chain.0 ≡ Some self.now.walk }
    {
        self.chain
    }

    /// A spur goes in: after entry `at` the walk goes to `via` and straight back.
    fn insert_spur(&mut self, sides: &Sides, at: u32, via: VertexName) -> Result<(), MoveFault>
        ensures step { (mesh : FaceList) → IsTableOf mesh sides.now → MatchResult result
            (λ _. step_of mesh self.old.peak self.old.walk (Insert at via) ≡ Ok self.new.walk)
            (λ fault. step_of mesh self.old.peak self.old.walk (Insert at via) ≡ Err fault) }
        ensures peak { self.new.peak ≡ self.old.peak }
        ensures refused { OnErr result (self.new ≡ self.old) }
    {
        let chain = self.chain;
        let darts = self.pool.len(chain) - 1;
        if darts < at {
            return Err(MoveFault::Place);
        }
        let here = read(&mut self.pool, Spot { chain, at });
        if !form_edge(sides, here, via) {
            return Err(MoveFault::NoEdge);
        }
        if darts + 2 > self.peak {
            return Err(MoveFault::OverPeak);
        }
        // Before its entry: so the place of the chain, which is there, stays for the next move.
        self.pool.push_after(chain, at, here.0);
        self.pool.push_after(chain, at + 1, via.0);
        Ok(())
    }

    /// A spur goes out: entry `at + 1`, which is `via`, goes with the entry after it.
    fn remove_spur(&mut self, at: u32, via: VertexName) -> Result<(), MoveFault>
        ensures step { (mesh : FaceList) → MatchResult result
            (λ _. step_of mesh self.old.peak self.old.walk (Remove at via) ≡ Ok self.new.walk)
            (λ fault. step_of mesh self.old.peak self.old.walk (Remove at via) ≡ Err fault) }
        ensures peak { self.new.peak ≡ self.old.peak }
        ensures refused { OnErr result (self.new ≡ self.old) }
    {
        let chain = self.chain;
        // In 64 bits no sum of places wraps.
        if u64::from(at) + 2 >= u64::from(self.pool.len(chain)) {
            return Err(MoveFault::Place);
        }
        let here = read(&mut self.pool, Spot { chain, at });
        let middle = VertexName(self.pool.at(chain, at + 1));
        if here != VertexName(self.pool.at(chain, at + 2)) || middle != via {
            return Err(MoveFault::NotSpur);
        }
        // The last of the three entries is left, which is the first one too.
        self.pool.cut_between(chain, at, at + 2);
        Ok(())
    }

    /// The walk goes round a face the other way: `taken` sides, from entry `at` on, are replaced by the others.
    fn go_across(&mut self, faces: &Faces, at: u32, way: Way, taken: u32) -> Result<(), MoveFault>
        ensures step { MatchResult result
            (λ _. step_of faces.now self.old.peak self.old.walk (Across at way.face way.corner way.forward taken) ≡ Ok self.new.walk)
            (λ fault. step_of faces.now self.old.peak self.old.walk (Across at way.face way.corner way.forward taken) ≡ Err fault) }
        ensures peak { self.new.peak ≡ self.old.peak }
        ensures refused { OnErr result (self.new ≡ self.old) }
    {
        let spot = Spot {
            chain: self.chain,
            at,
        };
        // In 64 bits no sum of places wraps.
        let darts = u64::from(self.pool.len(spot.chain) - 1);
        let taken_darts = u64::from(taken);
        if darts < u64::from(at) + taken_darts {
            return Err(MoveFault::Place);
        }
        if !is_on_face(&mut self.pool, spot, faces, way, taken) {
            return Err(MoveFault::NotOnFace);
        }
        let left = faces.sides(way.face) - taken;
        if darts + u64::from(left) > u64::from(self.peak) + taken_darts {
            return Err(MoveFault::OverPeak);
        }
        replace_sides(&mut self.pool, spot, faces, way, taken);
        Ok(())
    }
}
