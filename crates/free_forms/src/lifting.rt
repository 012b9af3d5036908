//! Lists of moves that lead from a walk to a homotopic one.
ghost use Rattle.std.specs.Prelude.{◌≡◌, ◌+◌, ◌*◌, ◌<◌, ◌≤◌, ◌++◌, max, length, All, IfOk, IfSome, OnOk, MatchOption};
ghost use Rattle.surf_model.specs.FaceLists.{total_sides};
ghost use Rattle.surf_model.specs.Moves.{Homotopic};
ghost use Rattle.surf_model.specs.Rewriting.{sides_of_move, way_back};
ghost use Rattle.surf_model.specs.Walks.{IsWalk, HaveCommonEnds, darts, AreWalkPair};
ghost use Rattle.free_forms.specs.PeakedLists.{LeadsAtPeak, IsListWithin, IsMoveOf};
ghost use Rattle.free_forms.specs.declared.limits.TheConstants.{MOST_OPEN_SIDES, MOST_OPEN_DARTS, MOST_OPEN_STEPS};

use crate::deciding::are_equal;
use crate::open_mesh::OpenMesh;
use crate::reduction::reduce;
use common_ends::CommonDarts;
use std::alloc::{AllocError, Global};
use surf_model::{Faces, Move, MoveList, Walk};

/// Moves that lead from a walk to another with the same ends, with their exact peak; none exactly where no moves do.
///
/// What both walks begin with and end with stays as it is. What is left of the first is led to its normal walk, and from there back along
/// the moves that lead what is left of the second to its normal walk.
pub fn lift_open(
    alloc: Global,
    mesh: &OpenMesh,
    first: &Walk,
    second: &Walk,
) -> Result<Option<MoveList>, AllocError>
    requires first { IsWalk mesh.now.mesh first.now }
    requires second { IsWalk mesh.now.mesh second.now }
    requires ends { HaveCommonEnds first.now second.now }
    requires sides { total_sides mesh.now.mesh ≤ MOST_OPEN_SIDES }
    requires few { darts first.now + darts second.now ≤ MOST_OPEN_DARTS }
    ensures moves { IfOk result (λ found. MatchOption found
        (Homotopic mesh.now.mesh first.now second.now → ⊥)
        (λ list. LeadsAtPeak mesh.now.mesh first.now list second.now)) }
    ensures short { IfOk result (λ found. IfSome found (λ list. IsListWithin MOST_OPEN_STEPS list)) }
{
    let common = CommonDarts::of(first, second);
    let near = common.between(alloc, first)?;
    let far = common.between(alloc, second)?;
    match lift_by_normal_walks(alloc, mesh, &near, &far)? {
        Some(list) => Ok(Some(common.put_back(alloc, list)?)),
        None => Ok(None),
    }
}

/// Moves that lead from a walk to the normal walk of both, and from there back to the other; none exactly where no moves join them. Each
/// dart costs no more moves than the mesh may have sides, nor does any walk on the way have more darts.
fn lift_by_normal_walks(
    alloc: Global,
    mesh: &OpenMesh,
    first: &Walk,
    second: &Walk,
) -> Result<Option<MoveList>, AllocError>
    requires walks { AreWalkPair mesh.now.mesh first.now second.now }
    requires sides { total_sides mesh.now.mesh ≤ MOST_OPEN_SIDES }
    requires few { darts first.now + darts second.now ≤ MOST_OPEN_DARTS }
    ensures moves { IfOk result (λ found. MatchOption found
        (Homotopic mesh.now.mesh first.now second.now → ⊥)
        (λ list. LeadsAtPeak mesh.now.mesh first.now list second.now)) }
    ensures short { IfOk result (λ found. IfSome found
        (λ list. IsListWithin ((darts first.now + darts second.now) * MOST_OPEN_SIDES) list)) }
{
    let one = reduce(alloc, mesh, first)?;
    let two = reduce(alloc, mesh, second)?;
    let (near, mut moves) = one.into_parts(alloc)?;
    let (far, others) = two.into_parts(alloc)?;
    let faces = mesh.faces();
    if are_equal(&near, &far) {
        push_back(&mut moves, faces, &others)?;
        Ok(Some(moves))
    } else {
        Ok(None)
    }
}

/// Puts the way back along a list of moves last, which passes walks of its peak.
fn push_back(moves: &mut MoveList, faces: &Faces, others: &MoveList) -> Result<(), AllocError>
    requires { All (IsMoveOf faces.now) others.now.moves }
    ensures moves { OnOk result (moves.new.moves ≡ moves.old.moves ++ way_back faces.now others.now.moves) }
    ensures none { OnOk result (length others.now.moves ≡ 0 → moves.new.peak ≡ moves.old.peak) }
    ensures some { OnOk result (0 < length others.now.moves → moves.new.peak ≡ max moves.old.peak others.now.peak) }
{
    for back in 0..others.len() {
        let mv = others.at(others.len() - 1 - back);
        moves.push(mv.inverse(sides_of(faces, mv)), others.peak())?;
    }
    Ok(())
}

/// The number of sides of the face of a move; 0 for a move that has no face.
fn sides_of(faces: &Faces, mv: Move) -> u32
    requires { IsMoveOf faces.now mv }
    ensures { result ≡ sides_of_move faces.now mv }
{
    match mv {
        Move::Insert { .. } | Move::Remove { .. } => 0,
        Move::Across { face, .. } => faces.sides(face),
    }
}
