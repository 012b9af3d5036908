//! What comes of checking a certificate.
ghost use Rattle.std.specs.Prelude.{◌≡◌, IfOk};
ghost use Rattle.surf_model.specs.Edges.{IsTableOf};
ghost use Rattle.surf_model.specs.Walks.{IsWalk};
ghost use Rattle.homology.specs.Verdicts.{IsVerdict};
ghost use Rattle.homology.specs.declared.verdict.HomologyVerdict.{HomologyVerdict};

use crate::certificate::HomologyCert;
use crate::chain_check::check_chain;
use crate::cocycle_check::check_cocycle;
use crate::walk_pair::WalkPair;
use std::alloc::{AllocError, Global};
use surf_model::{FaceName, Faces, Sides, VertexName, Walk};

/// What comes of checking a certificate: the first of these that holds.
#[derive(Clone, Copy, Debug, PartialEq, Eq)]
pub enum HomologyVerdict {
    /// A chain's first listed face that is not there.
    Face(FaceName),
    /// A chain's least edge at which its boundary is not the difference of the counts, or a cocycle's first listed pair that
    /// is no edge. The lower vertex comes first.
    Edge(VertexName, VertexName),
    /// A cocycle's least face round which the numbers do not add up to 0.
    Sum(FaceName),
    /// The cocycle separates nothing: it adds up to the same along both walks.
    Zero,
    /// The certificate holds.
    Accepted,
}

/// Checks a certificate of whatever origin, on any face list. The verdict is the first fault that it has, or that it holds:
/// an accepted chain shows that the walks are homologous, and an accepted cocycle that they are not. It looks at each line,
/// dart, side and edge once.
pub fn check_homology(
    alloc: Global,
    faces: &Faces,
    sides: &Sides,
    first: &Walk,
    second: &Walk,
    certificate: &HomologyCert,
) -> Result<HomologyVerdict, AllocError>
    requires table { IsTableOf faces.now sides.now }
    requires first { IsWalk faces.now first.now }
    requires second { IsWalk faces.now second.now }
    ensures verdict { IfOk result (IsVerdict faces.now first.now second.now certificate.now) }
    // So each verdict comes exactly where it is the first: a certificate that holds is accepted.
    ensures exact { (verdict : HomologyVerdict) → IsVerdict faces.now first.now second.now certificate.now verdict
        → IfOk result (λ given. given ≡ verdict) }
{
    let walks = WalkPair {
        faces,
        sides,
        first,
        second,
    };
    match certificate {
        HomologyCert::Chain(numbers) => check_chain(alloc, walks, numbers),
        HomologyCert::Cocycle(numbers) => check_cocycle(alloc, walks, numbers),
    }
}
