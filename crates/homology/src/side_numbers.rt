//! What a cocycle gives to the sides of the faces, in an array: a number for each side, face after face.
ghost use Rattle.std.specs.Prelude.{◌≡◌, ℕ, ℤ, All, IfOk, IsTrue, ◌↔◌, ◌<◌, ◌≤◌, length, unsigned_abs};
ghost use Rattle.surf_model.specs.Edges.{IsTableOf, edge_in};
ghost use Rattle.surf_model.specs.FaceLists.{total_sides};
ghost use Rattle.homology.specs.ArrayCertificates.{side_numbers};
ghost use Rattle.homology.specs.Certificates.{edge_number};
ghost use Rattle.homology.specs.Tallies.{AreTableNumbers, AreNumbersWithin};
ghost use Rattle.homology.specs.Verdicts.{HasEdge};
ghost use Rattle.homology.specs.declared.certificate.TheConstants.{MOST_NUMBER};

use crate::certificate::CocycleNumbers;
use crate::numbers::numbers_by_edge;
use crate::tally::number_of_dart;
use std::alloc::{AllocError, Global};
use surf_model::{DartName, EdgeName, Faces, Sides};

/// The number of each side, by those that are listed for the edges.
pub(crate) fn numbers_by_side(
    alloc: Global,
    faces: &Faces,
    sides: &Sides,
    numbers: &CocycleNumbers,
) -> Result<Vec<i64>, AllocError>
    requires table { IsTableOf faces.now sides.now }
    requires edges { All (HasEdge faces.now) numbers.now }
    ensures numbers { IfOk result (λ of_side. of_side.items ≡ side_numbers faces.now (edge_number numbers.now)) }
    ensures small { IfOk result (λ of_side. AreNumbersWithin MOST_NUMBER of_side.items) }
{
    let of_edge = numbers_by_edge(alloc, faces, sides, numbers)?;
    numbers_round(alloc, faces, sides, &of_edge)
}

/// The number of each side, by those of the edges.
fn numbers_round(
    alloc: Global,
    faces: &Faces,
    sides: &Sides,
    of_edge: &[i64],
) -> Result<Vec<i64>, AllocError>
    requires table { IsTableOf faces.now sides.now }
    requires long { length of_edge.now ≡ length sides.now }
    requires small { AreNumbersWithin MOST_NUMBER of_edge.now }
    ensures numbers { (number : ℕ → ℕ → ℤ) → AreTableNumbers sides.now of_edge.now number
        → IfOk result (λ of_side. of_side.items ≡ side_numbers faces.now number) }
    ensures small { IfOk result (λ of_side. AreNumbersWithin MOST_NUMBER of_side.items) }
{
    let mut of_side = Vec::with_capacity(alloc, faces.total() as usize)?;
    for dart in 0..faces.total() {
        let edge = sides.edge_of(DartName(dart));
        let from = faces.corner_at(DartName(dart));
        of_side.push(number_of_dart(sides, of_edge, edge, from))?;
    }
    Ok(of_side)
}

/// The number of each edge, by that of its first side.
pub(crate) fn numbers_of_edges(
    alloc: Global,
    faces: &Faces,
    sides: &Sides,
    of_side: &[i64],
) -> Result<Vec<i64>, AllocError>
    requires table { IsTableOf faces.now sides.now }
    requires long { length of_side.now ≡ total_sides faces.now }
    requires small { AreNumbersWithin MOST_NUMBER of_side.now }
    ensures long { IfOk result (λ of_edge. length of_edge.items ≡ length sides.now) }
    ensures small { IfOk result (λ of_edge. AreNumbersWithin MOST_NUMBER of_edge.items) }
    ensures numbers { (number : ℕ → ℕ → ℤ) → of_side.now ≡ side_numbers faces.now number
        → IfOk result (λ of_edge. AreTableNumbers sides.now of_edge.items number) }
{
    let mut of_edge = Vec::with_capacity(alloc, sides.len() as usize)?;
    for edge in 0..sides.len() {
        of_edge.push(number_by_side(faces, sides, of_side, EdgeName(edge)))?;
    }
    Ok(of_edge)
}

/// The number of an edge, by that of its first side.
fn number_by_side(faces: &Faces, sides: &Sides, of_side: &[i64], edge: EdgeName) -> i64
    requires table { IsTableOf faces.now sides.now }
    requires edge { edge.0 < length sides.now }
    requires long { length of_side.now ≡ total_sides faces.now }
    requires small { AreNumbersWithin MOST_NUMBER of_side.now }
    ensures small { unsigned_abs result ≤ MOST_NUMBER }
    ensures number { (number : ℕ → ℕ → ℤ) → of_side.now ≡ side_numbers faces.now number
        → result ≡ number (edge_in sides.now edge.0).low (edge_in sides.now edge.0).high }
{
    let dart = faces.dart(sides.side(edge, 0));
    let number = of_side[dart.0 as usize];
    let (low, _) = sides.ends(edge);
    if faces.corner_at(dart) == low {
        number
    } else {
        -number
    }
}

/// Whether the edges with these numbers give the sides theirs.
pub(crate) fn are_even(faces: &Faces, sides: &Sides, of_side: &[i64], of_edge: &[i64]) -> bool
    requires table { IsTableOf faces.now sides.now }
    requires sides { length of_side.now ≡ total_sides faces.now }
    requires of_side { AreNumbersWithin MOST_NUMBER of_side.now }
    requires long { length of_edge.now ≡ length sides.now }
    requires small { AreNumbersWithin MOST_NUMBER of_edge.now }
    ensures { (number : ℕ → ℕ → ℤ) → AreTableNumbers sides.now of_edge.now number
        → IsTrue result ↔ (of_side.now ≡ side_numbers faces.now number) }
{
    for dart in 0..faces.total() {
        let edge = sides.edge_of(DartName(dart));
        let from = faces.corner_at(DartName(dart));
        if number_of_dart(sides, of_edge, edge, from) != of_side[dart as usize] {
            return false;
        }
    }
    true
}
