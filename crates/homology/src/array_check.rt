//! Judging certificates that lie in arrays.
ghost use Rattle.std.specs.Prelude.{IfOk, IfNone, IfSome};
ghost use Rattle.surf_model.specs.Edges.{IsTableOf};
ghost use Rattle.surf_model.specs.Walks.{IsWalk};
ghost use Rattle.homology.specs.ArrayVerdicts.{IsArrayChainVerdict, IsArrayCocycleVerdict, IsFirstLarge};
ghost use Rattle.homology.specs.Tallies.{AreNumbersWithin};
ghost use Rattle.homology.specs.declared.certificate.TheConstants.{MOST_NUMBER};

use crate::certificate::MOST_NUMBER;
use crate::chain_check::judge_faces;
use crate::cocycle_check::judge_edges;
use crate::side_numbers::{are_even, numbers_of_edges};
use crate::verdict::HomologyVerdict;
use crate::walk_pair::WalkPair;
use std::alloc::{AllocError, Global};
use surf_model::{Faces, Sides, Walk};

/// What comes of checking numbers in an array: the first of these that holds.
#[derive(Clone, Copy, Debug, PartialEq, Eq)]
pub enum ArrayVerdict {
    /// There is not a number for each face, or of a cocycle for each side.
    Count,
    /// The number at this place, the first such one, is larger in size than `MOST_NUMBER`.
    Large(usize),
    /// No numbers of the edges give the sides these numbers: two sides of an edge disagree.
    Uneven,
    /// The verdict on the chain, or on the cocycle. No face of a chain and no edge of a cocycle is missing.
    Judged(HomologyVerdict),
}

/// Checks a chain of whatever origin, which has a number for each face, on any face list.
pub fn check_chain_array(
    alloc: Global,
    faces: &Faces,
    sides: &Sides,
    first: &Walk,
    second: &Walk,
    numbers: &[i64],
) -> Result<ArrayVerdict, AllocError>
    requires table { IsTableOf faces.now sides.now }
    requires first { IsWalk faces.now first.now }
    requires second { IsWalk faces.now second.now }
    ensures { IfOk result (IsArrayChainVerdict faces.now first.now second.now numbers.now) }
{
    if numbers.len() != faces.len() as usize {
        return Ok(ArrayVerdict::Count);
    }
    if let Some(place) = first_large(numbers) {
        return Ok(ArrayVerdict::Large(place));
    }
    let walks = WalkPair {
        faces,
        sides,
        first,
        second,
    };
    let verdict = judge_faces(alloc, walks, numbers)?;
    Ok(ArrayVerdict::Judged(verdict))
}

/// Checks a cocycle of whatever origin, which has a number for each side, on any face list.
pub fn check_cocycle_array(
    alloc: Global,
    faces: &Faces,
    sides: &Sides,
    first: &Walk,
    second: &Walk,
    numbers: &[i64],
) -> Result<ArrayVerdict, AllocError>
    requires table { IsTableOf faces.now sides.now }
    requires first { IsWalk faces.now first.now }
    requires second { IsWalk faces.now second.now }
    ensures { IfOk result (IsArrayCocycleVerdict faces.now first.now second.now numbers.now) }
{
    if numbers.len() != faces.total() as usize {
        return Ok(ArrayVerdict::Count);
    }
    if let Some(place) = first_large(numbers) {
        return Ok(ArrayVerdict::Large(place));
    }
    let of_edge = numbers_of_edges(alloc, faces, sides, numbers)?;
    if !are_even(faces, sides, numbers, &of_edge) {
        return Ok(ArrayVerdict::Uneven);
    }
    let walks = WalkPair {
        faces,
        sides,
        first,
        second,
    };
    Ok(ArrayVerdict::Judged(judge_edges(walks, &of_edge)))
}

/// The first number that is too large in size.
fn first_large(numbers: &[i64]) -> Option<usize>
    ensures some { IfSome result (IsFirstLarge numbers.now) }
    ensures none { IfNone result (AreNumbersWithin MOST_NUMBER numbers.now) }
{
    for place in 0..numbers.len() {
        if numbers[place].unsigned_abs() > u64::from(MOST_NUMBER) {
            return Some(place);
        }
    }
    None
}
