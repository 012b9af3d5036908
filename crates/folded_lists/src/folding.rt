//! Lists of moves that lead on the double of a mesh, made lists on the mesh.
ghost use Rattle.std.specs.Prelude.{◌≡◌, ◌<◌, ◌≤◌, ◌^◌, ℕ, List, Some, length, IfOk, MatchOption};
ghost use Rattle.surf_model.specs.Edges.{IsTableOf};
ghost use Rattle.surf_model.specs.Moves.{apply};
ghost use Rattle.surf_model.specs.PeakedLists.{LeadsAtPeak};
ghost use Rattle.surf_model.specs.Replacements.{place_of_move};
ghost use Rattle.surf_model.specs.Walks.{IsWalk, darts};
ghost use Rattle.surf_model.specs.declared.limits.TheConstants.{MOST_PEAK};
ghost use Rattle.doubling.specs.Doubles.{double_of};
ghost use Rattle.doubling.specs.Folds.{folded};
ghost use Rattle.folded_lists.specs.FoldedLists.{IsFoldedEntry, StaysWithinPeak, LeadsFolded};

use crate::below::move_below;
use crate::entries::{Entry, go_to, vertex};
use move_checker::Tape;
use std::alloc::{AllocError, Global};
use surf_model::{Faces, Move, MoveList, Sides, Walk};

/// The fold of a list on the double of a mesh that leads from a walk of the mesh: a vertex of the mirror becomes its vertex, a mirror face
/// its face, a quad a spur along its edge, and what repeats is left out, so that a move becomes one or none. It leads where the list leads,
/// with its exact peak. `sides` are those of the double.
///
/// It takes memory for a walk of as many darts as the peak. The time is that of doing the moves on the walk above, and of reading that walk
/// from the place of each move to that of the next, where an entry costs its way from the place of the move before, within a segment.
pub fn fold(
    alloc: Global,
    faces: &Faces,
    double: &Faces,
    sides: &Sides,
    first: &Walk,
    list: &MoveList,
) -> Result<MoveList, AllocError>
    requires double { double.now ≡ double_of faces.now }
    requires table { IsTableOf double.now sides.now }
    requires walk { IsWalk faces.now first.now }
    requires leads { (second : List ℕ) × LeadsAtPeak double.now first.now list.now second }
    requires peak { list.now.peak ≤ MOST_PEAK }
    ensures leads { IfOk result (LeadsFolded faces.now first.now list.now) }
    ensures many { IfOk result (λ below. length below.moves ≤ length list.now.moves) }
    ensures peak { IfOk result (λ below. below.peak ≤ list.now.peak) }
{
    // The proof reads what holds of every face list.
    let _ = faces.len();
    // The first walk is within the peak: so the error is want of memory.
    let Ok(mut tape) = Tape::start(alloc, first, list.peak()) else {
        return Err(AllocError);
    };
    let mut entry = Entry { above: 0, below: 0 };
    let mut darts = first.darts();
    let mut below = MoveList::new(alloc, darts);
    for k in 0..list.len() {
        let low = step(faces, double, sides, &mut tape, &mut entry, list.at(k));
        if let Some(mv) = low {
            darts = darts_after(faces, darts, mv);
            below.push(mv, darts)?;
        }
    }
    Ok(below)
}

/// Does a move on a walk of the double, and goes to the entry where it acts; and what it becomes on the mesh: a move of the fold of that
/// walk, or none where the fold stays.
fn step(
    faces: &Faces,
    double: &Faces,
    sides: &Sides,
    tape: &mut Tape,
    entry: &mut Entry,
    mv: Move,
) -> Option<Move>
    requires double { double.now ≡ double_of faces.now }
    requires table { IsTableOf double.now sides.now }
    requires entry { IsFoldedEntry faces.now.count tape.old.walk entry.old.above entry.old.below }
    requires allowed { StaysWithinPeak double.now tape.old.peak tape.old.walk mv }
    ensures entry { IsFoldedEntry faces.now.count tape.new.walk entry.new.above entry.new.below }
    ensures walk { apply double.now tape.old.walk mv ≡ Some tape.new.walk }
    ensures peak { tape.new.peak ≡ tape.old.peak }
    ensures below { MatchOption result (folded faces.now.count tape.new.walk ≡ folded faces.now.count tape.old.walk)
        (λ low. apply faces.now (folded faces.now.count tape.old.walk) low ≡ Some (folded faces.now.count tape.new.walk)) }
{
    *entry = go_to(faces.count(), tape, *entry, place_of(mv));
    let low = move_below(faces, double, entry.below, vertex(tape, entry.above), mv);
    tape.step(double, sides, mv).unwrap();
    low
}

/// How many darts a walk has after a move, of so many before.
fn darts_after(faces: &Faces, before: u32, mv: Move) -> u32
    requires { (walk : List ℕ) × (next : List ℕ) × (0 < length walk) × (darts walk ≡ before) × (apply faces.now walk mv ≡ Some next)
        × (darts next < 2 ^ 32) }
    ensures { (walk next : List ℕ) → 0 < length walk → darts walk ≡ before → apply faces.now walk mv ≡ Some next → result ≡ darts next }
{
    match mv {
        Move::Insert { .. } => before + 2,
        Move::Remove { .. } => before - 2,
        Move::Across { face, taken, .. } => before - taken + (faces.sides(face) - taken),
    }
}

/// The place at which a move acts.
fn place_of(mv: Move) -> u32
    ensures { result ≡ place_of_move mv }
{
    match mv {
        Move::Insert { at, .. } | Move::Remove { at, .. } | Move::Across { at, .. } => at,
    }
}
