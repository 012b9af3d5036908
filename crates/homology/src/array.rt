//! Certificates of homology that lie in arrays.
ghost use Rattle.std.specs.Prelude.{IfOk, List, ℕ};
ghost use Rattle.surf_model.specs.Edges.{IsTableOf};
ghost use Rattle.homology.specs.ArrayCertificates.{AreSmall, DoShow};
ghost use Rattle.homology.specs.Verdicts.{IsVerdict};
ghost use Rattle.homology.specs.declared.verdict.HomologyVerdict.{HomologyVerdict};

use crate::certificate::HomologyCert;
use crate::numbers::numbers_by_face;
use crate::side_numbers::numbers_by_side;
use std::alloc::{AllocError, Global};
use surf_model::{Faces, Sides};

/// Numbers that show whether two walks are homologous.
#[derive(Debug, Drop)]
pub enum HomologyNumbers {
    /// They are: for each face its number in a chain for them.
    Chain(Vec<i64>),
    /// They are not: for each side, face after face, what a cocycle gives it that separates them.
    Cocycle(Vec<i64>),
}

/// The numbers of a certificate that holds.
pub fn numbers_of(
    alloc: Global,
    faces: &Faces,
    sides: &Sides,
    shown: &HomologyCert,
) -> Result<HomologyNumbers, AllocError>
    requires table { IsTableOf faces.now sides.now }
    requires holds { (first second : List ℕ) × IsVerdict faces.now first second shown.now HomologyVerdict.Accepted }
    ensures show { (first second : List ℕ) → IsVerdict faces.now first second shown.now HomologyVerdict.Accepted
        → IfOk result (DoShow faces.now first second) }
    ensures small { IfOk result AreSmall }
{
    match shown {
        HomologyCert::Chain(lines) => {
            let of_face = numbers_by_face(alloc, faces, lines)?;
            Ok(HomologyNumbers::Chain(of_face))
        }
        HomologyCert::Cocycle(lines) => {
            let of_side = numbers_by_side(alloc, faces, sides, lines)?;
            Ok(HomologyNumbers::Cocycle(of_side))
        }
    }
}
