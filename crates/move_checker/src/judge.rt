//! The verdict on a list of moves.
ghost use Rattle.std.specs.Prelude.{◌≡◌, ◌≤◌, ◌↔◌, IfOk};
ghost use Rattle.surf_model.specs.Edges.{IsTableOf};
ghost use Rattle.surf_model.specs.Moves.{Leads, greatest_darts};
ghost use Rattle.move_checker.specs.Verdicts.{verdict_of};
ghost use Rattle.surf_model.specs.declared.limits.TheConstants.{MOST_PEAK};

use crate::fault::MoveFault;
use crate::tape::{Tape, TapeFault};
use std::alloc::{AllocError, Global};
use surf_model::{Faces, MoveList, Sides, Walk};

/// What a list of moves does: the first of these that holds, in the order `Peak`, `AtMove`, `End`.
#[derive(Clone, Copy, Debug, PartialEq, Eq)]
pub enum Verdict {
    /// The moves lead from the first walk to the second within the peak.
    Accepted,
    /// The first walk has more darts than the peak that is declared.
    Peak,
    /// A move is refused: the first such, counted from 1.
    AtMove { number: u64, fault: MoveFault },
    /// All moves are done, and the walk is not the second one.
    End,
}

/// Judges a list of moves that is to lead from the first walk to the second within its peak.
///
/// It takes memory for a walk of as many darts as the peak, once; the error is that there is none.
pub fn check_moves(
    alloc: Global,
    faces: &Faces,
    sides: &Sides,
    first: &Walk,
    second: &Walk,
    list: &MoveList,
) -> Result<Verdict, AllocError>
    requires table { IsTableOf faces.now sides.now }
    requires peak { list.now.peak ≤ MOST_PEAK }
    ensures verdict { IfOk result (λ verdict. verdict ≡ verdict_of faces.now first.now second.now list.now) }
    // In the words of the mesh: the moves lead from walk to walk, and pass no more darts than is declared.
    ensures accepted { IfOk result (λ verdict. (verdict ≡ Verdict.Accepted)
        ↔ (Leads faces.now first.now list.now.moves second.now
        × (greatest_darts faces.now first.now list.now.moves ≤ list.now.peak))) }
{
    let mut tape = match Tape::start(alloc, first, list.peak()) {
        Ok(tape) => tape,
        Err(TapeFault::OverPeak) => return Ok(Verdict::Peak),
        Err(TapeFault::OutOfMemory) => return Err(AllocError),
    };
    for k in 0..list.len() {
        if let Err(fault) = tape.step(faces, sides, list.at(k)) {
            return Ok(Verdict::AtMove {
                number: k + 1,
                fault,
            });
        }
    }
    if tape.equals(second) {
        Ok(Verdict::Accepted)
    } else {
        Ok(Verdict::End)
    }
}
