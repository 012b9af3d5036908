//! Whether the numbers of a cocycle add up to 0 round every face, and separate two walks.
ghost use Rattle.std.specs.Prelude.{◌≡◌, ◌<◌, ◌≤◌, ◌^◌, ℕ, length, IfOk, MatchOption, ℤ, unsigned_abs};
ghost use Rattle.surf_model.specs.Edges.{IsTableOf, edge_in};
ghost use Rattle.surf_model.specs.Walks.{IsWalk};
ghost use Rattle.homology.specs.Sums.{along};
ghost use Rattle.homology.specs.Cocycles.{dart_number, face_sum, IsCocycle};
ghost use Rattle.homology.specs.Verdicts.{IsCocycleVerdict, IsLeastOpen, IsVerdict};
ghost use Rattle.homology.specs.Tallies.{AreNumbersWithin, AreTableNumbers};
ghost use Rattle.homology.specs.declared.certificate.HomologyCert.TheVariants.{Cocycle};
ghost use Rattle.homology.specs.declared.certificate.TheConstants.{MOST_NUMBER};

use crate::certificate::CocycleNumbers;
use crate::numbers::{first_stray, numbers_by_edge};
use crate::tally::{edge_between, number_of_dart};
use crate::verdict::HomologyVerdict;
use crate::walk_pair::WalkPair;
use std::alloc::{AllocError, Global};
use surf_model::{FaceName, Faces, Side, Sides, Walk};

/// Checks the numbers of a cocycle: that each listed pair is an edge, then the sum round each face, and then the sums along
/// the two walks.
pub(crate) fn check_cocycle(
    alloc: Global,
    walks: WalkPair<'_>,
    numbers: &CocycleNumbers,
) -> Result<HomologyVerdict, AllocError>
    requires { IsTableOf walks.faces.now walks.sides.now }
    ensures { IfOk result (IsVerdict walks.entry.faces.now walks.entry.first.now walks.entry.second.now (Cocycle numbers.now)) }
{
    let (faces, sides) = (walks.faces, walks.sides);
    if let Some(line) = first_stray(faces, sides, numbers) {
        return Ok(HomologyVerdict::Edge(line.low, line.high));
    }
    let of_edge = numbers_by_edge(alloc, faces, sides, numbers)?;
    Ok(judge_edges(walks, &of_edge))
}

/// The verdict on the numbers of all edges: it looks at each face, and then at the two walks.
pub(crate) fn judge_edges(walks: WalkPair<'_>, of_edge: &[i64]) -> HomologyVerdict
    requires table { IsTableOf walks.faces.now walks.sides.now }
    requires long { length of_edge.now ≡ length walks.sides.now }
    requires small { AreNumbersWithin MOST_NUMBER of_edge.now }
    ensures { (number : ℕ → ℕ → ℤ) → AreTableNumbers walks.entry.sides.now of_edge.now number
        → IsCocycleVerdict walks.entry.faces.now number walks.entry.first.now walks.entry.second.now result }
{
    let (faces, sides) = (walks.faces, walks.sides);
    if let Some(face) = first_open(faces, sides, of_edge) {
        return HomologyVerdict::Sum(face);
    }
    let first = sum_along(faces, sides, of_edge, walks.first);
    let second = sum_along(faces, sides, of_edge, walks.second);
    if first == second {
        return HomologyVerdict::Zero;
    }
    HomologyVerdict::Accepted
}

/// The first face round which the numbers do not add up to 0.
fn first_open(faces: &Faces, sides: &Sides, of_edge: &[i64]) -> Option<FaceName>
    requires table { IsTableOf faces.now sides.now }
    requires long { length of_edge.now ≡ length sides.now }
    requires small { AreNumbersWithin MOST_NUMBER of_edge.now }
    ensures { (number : ℕ → ℕ → ℤ) → AreTableNumbers sides.now of_edge.now number
        → MatchOption result (IsCocycle faces.now number) (λ face. IsLeastOpen faces.now number face.0) }
{
    for face in 0..faces.len() {
        if sum_round(faces, sides, of_edge, FaceName(face)) != 0 {
            return Some(FaceName(face));
        }
    }
    None
}

/// The sum round a face.
fn sum_round(faces: &Faces, sides: &Sides, of_edge: &[i64], face: FaceName) -> i64
    requires table { IsTableOf faces.now sides.now }
    requires long { length of_edge.now ≡ length sides.now }
    requires small { AreNumbersWithin MOST_NUMBER of_edge.now }
    requires face { face.0 < length faces.now.faces }
    ensures { (number : ℕ → ℕ → ℤ) → AreTableNumbers sides.now of_edge.now number → result ≡ face_sum faces.now number face.0 }
{
    let mut sum = 0i64;
    for at in 0..faces.sides(face) {
        let edge = sides.edge_at(Side { face, at });
        sum += number_of_dart(sides, of_edge, edge, faces.corner(face, at));
    }
    sum
}

/// The sum along a walk.
fn sum_along(faces: &Faces, sides: &Sides, of_edge: &[i64], walk: &Walk) -> i64
    requires table { IsTableOf faces.now sides.now }
    requires long { length of_edge.now ≡ length sides.now }
    requires small { AreNumbersWithin MOST_NUMBER of_edge.now }
    requires walk { IsWalk faces.now walk.now }
    ensures { (number : ℕ → ℕ → ℤ) → AreTableNumbers sides.now of_edge.now number → result ≡ along (dart_number number) walk.now }
{
    let mut sum = 0i64;
    for dart in 0..walk.darts() {
        let from = walk.at(dart);
        let edge = edge_between(sides, from, walk.at(dart + 1));
        sum += number_of_dart(sides, of_edge, edge, from);
    }
    sum
}
