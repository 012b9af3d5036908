//! Judging a list of moves, move by move.
ghost use Rattle.std.specs.Prelude.{◌≡◌, ℕ, ◌+◌, ◌≤◌, ◌∷◌, ◌<◌, ◌^◌, [], List, IfOk};
ghost use Rattle.surf_model.specs.Edges.{IsTableOf};
ghost use Rattle.surf_model.specs.FaceLists.{FaceList};
ghost use Rattle.surf_model.specs.declared.limits.TheConstants.{MOST_PEAK};
ghost use Rattle.surf_model.specs.declared.moves.Move.{Move};
ghost use Rattle.move_checker.specs.Verdicts.{verdict_of};
ghost use Rattle.verify_commands.specs.Progress.{outlook};

use move_checker::{Tape, TapeFault, Verdict};
use std::alloc::{AllocError, Global};
use surf_model::{Faces, Move, Sides, Walk};

/// Two walks of a mesh.
#[derive(Clone, Copy)]
pub struct Pair<'a> {
    pub faces: &'a Faces,
    pub sides: &'a Sides,
    pub first: &'a Walk,
    pub second: &'a Walk,
}

/// How far a list of moves between two walks is judged.
#[derive(Drop)]
pub enum Progress {
    /// All moves so far were done, and the walk is that of the tape.
    Going(Tape),
    /// The verdict stands, whatever moves are left.
    Settled(Verdict),
}

impl Progress {
    /// No move is judged yet. It takes memory for as many darts as the peak, and no move takes any.
    pub fn start(alloc: Global, first: &Walk, peak: u32) -> Result<Progress, AllocError>
        requires { peak ≤ MOST_PEAK }
        ensures { IfOk result (λ progress. (mesh : FaceList) (second : List ℕ) (moves : List Move)
            → outlook mesh second 0 progress moves ≡ verdict_of mesh first.now second (record { moves = moves; peak = peak })) }
    {
        match Tape::start(alloc, first, peak) {
            Ok(tape) => Ok(Progress::Going(tape)),
            Err(TapeFault::OverPeak) => Ok(Progress::Settled(Verdict::Peak)),
            Err(TapeFault::OutOfMemory) => Err(AllocError),
        }
    }

    /// Judges a move more, behind as many as `done`.
    pub fn step(&mut self, pair: &Pair<'_>, done: u64, mv: Move)
        requires table { IsTableOf pair.now.faces.now pair.now.sides.now }
        requires few { done + 1 < 2 ^ 64 }
        ensures { (second : List ℕ) (moves : List Move) → outlook pair.now.faces.now second done self.old (mv ∷ moves)
            ≡ outlook pair.now.faces.now second (done + 1) self.new moves }
    {
        let Progress::Going(tape) = self else {
            return;
        };
        if let Err(fault) = tape.step(pair.faces, pair.sides, mv) {
            let number = done + 1;
            *self = Progress::Settled(Verdict::AtMove { number, fault });
        }
    }

    /// The verdict where no move is left.
    pub fn verdict(&self, second: &Walk) -> Verdict
        ensures { (mesh : FaceList) (done : ℕ) → result ≡ outlook mesh second.now done self.now [] }
    {
        match self {
            Progress::Going(tape) if tape.equals(second) => Verdict::Accepted,
            Progress::Going(_) => Verdict::End,
            Progress::Settled(verdict) => *verdict,
        }
    }
}
