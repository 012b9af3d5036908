//! The numbers of a certificate in arrays: one for each face, or one for each edge.
ghost use Rattle.std.specs.Prelude.{◌≡◌, ℕ, All, length, IfOk, IfSome, IfNone, OnOk};
ghost use Rattle.surf_model.specs.FaceLists.{is_edge};
ghost use Rattle.surf_model.specs.Edges.{IsTableOf};
ghost use Rattle.homology.specs.Certificates.{face_number, edge_number};
ghost use Rattle.homology.specs.Verdicts.{IsFirstAgainst, HasFace, HasEdge};
ghost use Rattle.homology.specs.Tallies.{number_at, AreNumbersWithin, AreTableNumbers};
ghost use Rattle.homology.specs.declared.certificate.FaceNumber.{FaceNumber};
ghost use Rattle.homology.specs.declared.certificate.EdgeNumber.{EdgeNumber};
ghost use Rattle.homology.specs.declared.certificate.TheConstants.{MOST_NUMBER};

use crate::certificate::{ChainNumbers, CocycleNumbers, EdgeNumber};
use crate::tally::edge_between;
use std::alloc::{AllocError, Global};
use surf_model::{FaceName, Faces, Sides, VertexName};

/// The first listed face that is not there.
pub(crate) fn first_missing(faces: &Faces, numbers: &ChainNumbers) -> Option<FaceName>
    ensures some { IfSome result (λ face.
        (line : FaceNumber) × IsFirstAgainst (HasFace faces.now) numbers.now line × (line.face ≡ face)) }
    ensures none { IfNone result (All (HasFace faces.now) numbers.now) }
{
    for k in 0..numbers.len() {
        let line = numbers.at(k);
        if line.face.0 >= faces.len() {
            return Some(line.face);
        }
    }
    None
}

/// The number of each face.
pub(crate) fn numbers_by_face(
    alloc: Global,
    faces: &Faces,
    numbers: &ChainNumbers,
) -> Result<Vec<i64>, AllocError>
    requires { All (HasFace faces.now) numbers.now }
    ensures each_face { IfOk result (λ of_face. length of_face.items ≡ length faces.now.faces) }
    ensures numbers { IfOk result (λ of_face. (f : ℕ) → number_at of_face.items f ≡ face_number numbers.now f) }
    ensures small { IfOk result (λ of_face. AreNumbersWithin MOST_NUMBER of_face.items) }
{
    let mut of_face = vec![in alloc; 0i64; faces.len() as usize]?;
    for k in 0..numbers.len() {
        let line = numbers.at(k);
        of_face[line.face.0 as usize] = line.number;
    }
    Ok(of_face)
}

/// The first listed pair that is no edge.
pub(crate) fn first_stray(
    faces: &Faces,
    sides: &Sides,
    numbers: &CocycleNumbers,
) -> Option<EdgeNumber>
    requires { IsTableOf faces.now sides.now }
    ensures some { IfSome result (IsFirstAgainst (HasEdge faces.now) numbers.now) }
    ensures none { IfNone result (All (HasEdge faces.now) numbers.now) }
{
    for k in 0..numbers.len() {
        let line = numbers.at(k);
        if !form_edge(faces, sides, line.low, line.high) {
            return Some(line);
        }
    }
    None
}

/// Whether two vertices form an edge. Any numbers are allowed.
fn form_edge(faces: &Faces, sides: &Sides, u: VertexName, v: VertexName) -> bool
    requires { IsTableOf faces.now sides.now }
    ensures { result ≡ is_edge faces.now u.0 v.0 }
{
    sides.between(u, v).is_some()
}

/// The number of each edge.
pub(crate) fn numbers_by_edge(
    alloc: Global,
    faces: &Faces,
    sides: &Sides,
    numbers: &CocycleNumbers,
) -> Result<Vec<i64>, AllocError>
    requires table { IsTableOf faces.now sides.now }
    requires edges { All (HasEdge faces.now) numbers.now }
    ensures numbers { IfOk result (λ of_edge. AreTableNumbers sides.now of_edge.items (edge_number numbers.now)) }
    ensures small { IfOk result (λ of_edge. AreNumbersWithin MOST_NUMBER of_edge.items) }
{
    let mut of_edge = vec![in alloc; 0i64; sides.len() as usize]?;
    for k in 0..numbers.len() {
        let line = numbers.at(k);
        let edge = edge_between(sides, line.low, line.high);
        of_edge[edge.0 as usize] = line.number;
    }
    Ok(of_edge)
}
