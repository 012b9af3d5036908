//! Elementary moves on walks, and lists of them.
ghost use Rattle.std.specs.Prelude.{◌≡◌, ◌+◌, ◌<◌, [], ◌∷◌, ◌++◌, max, length, slice_get, Some, OnOk, OnErr};
ghost use Rattle.surf_model.specs.declared.moves.Move.{Move};
ghost use Rattle.surf_model.specs.Rewriting.{TakesAtMost, inverse_of};

use crate::names::{FaceName, VertexName};
use std::alloc::{AllocError, Global};
use std::marker::Model;

/// An elementary move. Places of the walk are counted from 0, in entries.
#[derive(Clone, Copy, Debug, PartialEq, Eq)]
pub enum Move {
    /// A spur goes in: after entry `at` the walk goes to `via` and straight back.
    Insert {
        at: u32,
        via: VertexName,
    },
    /// A spur goes out: entry `at + 1`, which is `via`, goes with the entry after it.
    Remove {
        at: u32,
        via: VertexName,
    },
    /// The walk goes round a face the other way: `taken` sides from `corner` on are replaced by the
    /// others. The corners are read by rising places if `forward`, else by falling ones.
    Across {
        at: u32,
        face: FaceName,
        corner: u32,
        forward: bool,
        taken: u32,
    },
}

impl Move {
    /// The move back, where `sides` is the number of sides of the move's face: a spur goes out where one went
    /// in, and the other way round; a face is gone round again from the same corner, in the other direction.
    pub fn inverse(self, sides: u32) -> Move
        requires { TakesAtMost sides self }
        ensures { result ≡ inverse_of sides self }
    {
        match self {
            Move::Insert { at, via } => Move::Remove { at, via },
            Move::Remove { at, via } => Move::Insert { at, via },
            Move::Across {
                at,
                face,
                corner,
                forward,
                taken,
            } => Move::Across {
                at,
                face,
                corner,
                forward: !forward,
                taken: sides - taken,
            },
        }
    }
}

/// A list of moves, with its peak: the greatest number of darts that it is declared to pass.
#[derive(Debug, Drop)]
pub struct MoveList {
    moves: Vec<Move>,
    peak: u32,
}

impl Model for MoveList {
    ghost use Rattle.surf_model.specs.Moves.{PeakedMoves};

    ghost Value = { PeakedMoves };

    ghost view = { λ a. record { moves = a.moves.items; peak = a.peak } };
}

impl MoveList {
    /// A list of no moves whose peak is `darts`. It takes no memory.
    pub fn new(alloc: Global, darts: u32) -> MoveList
        ensures { result ≡ record { moves = []; peak = darts } }
    {
        MoveList {
            moves: Vec::new(alloc),
            peak: darts,
        }
    }

    /// Puts a move last. The peak becomes the greater of itself and `darts`.
    pub fn push(&mut self, mv: Move, darts: u32) -> Result<(), AllocError>
        ensures ok { OnOk result (self.new
            ≡ record { moves = self.old.moves ++ mv ∷ []; peak = max self.old.peak darts }) }
        ensures err { OnErr result (self.new ≡ self.old) }
    {
        self.moves.push(mv)?;
        self.peak = self.peak.max(darts);
        Ok(())
    }

    /// The number of moves.
    pub fn len(&self) -> u64
        ensures { result ≡ length self.now.moves }
    {
        self.moves.len() as u64
    }

    /// Move `k`, counted from 0.
    pub fn at(&self, k: u64) -> Move
        requires { k < length self.now.moves }
        ensures { slice_get self.now.moves k ≡ Some result }
    {
        self.moves[k as usize]
    }

    /// The peak.
    pub fn peak(&self) -> u32
        ensures { result ≡ self.now.peak }
    {
        self.peak
    }
}
