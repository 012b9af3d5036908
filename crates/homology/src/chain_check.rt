//! Whether a chain tells two walks apart at every edge.
ghost use Rattle.std.specs.Prelude.{◌≡◌, ℕ, ℤ, length, IfOk};
ghost use Rattle.surf_model.specs.Edges.{IsTableOf};
ghost use Rattle.homology.specs.Tallies.{AreNumbersWithin, number_at};
ghost use Rattle.homology.specs.Verdicts.{IsChainVerdict, IsVerdict};
ghost use Rattle.homology.specs.declared.certificate.TheConstants.{MOST_NUMBER};
ghost use Rattle.homology.specs.declared.certificate.HomologyCert.TheVariants.{Chain};

use crate::certificate::ChainNumbers;
use crate::numbers::{first_missing, numbers_by_face};
use crate::tally::{first_nonzero, rest_of};
use crate::verdict::HomologyVerdict;
use crate::walk_pair::WalkPair;
use std::alloc::{AllocError, Global};

/// Checks the numbers of a chain: that each listed face is there, and then each edge.
pub(crate) fn check_chain(
    alloc: Global,
    walks: WalkPair<'_>,
    numbers: &ChainNumbers,
) -> Result<HomologyVerdict, AllocError>
    requires { IsTableOf walks.faces.now walks.sides.now }
    ensures { IfOk result (IsVerdict walks.entry.faces.now walks.entry.first.now walks.entry.second.now (Chain numbers.now)) }
{
    if let Some(face) = first_missing(walks.faces, numbers) {
        return Ok(HomologyVerdict::Face(face));
    }
    let of_face = numbers_by_face(alloc, walks.faces, numbers)?;
    judge_faces(alloc, walks, &of_face)
}

/// The verdict on the numbers of all faces: it looks at each edge.
pub(crate) fn judge_faces(
    alloc: Global,
    walks: WalkPair<'_>,
    of_face: &[i64],
) -> Result<HomologyVerdict, AllocError>
    requires table { IsTableOf walks.faces.now walks.sides.now }
    requires each_face { length of_face.now ≡ length walks.faces.now.faces }
    requires small { AreNumbersWithin MOST_NUMBER of_face.now }
    ensures { IfOk result (λ verdict. (number : ℕ → ℤ) → ((f : ℕ) → number_at of_face.now f ≡ number f)
        → IsChainVerdict walks.entry.faces.now number walks.entry.first.now walks.entry.second.now verdict) }
{
    let rest = rest_of(alloc, walks, of_face)?;
    if let Some(edge) = first_nonzero(&rest, walks.sides) {
        let (low, high) = walks.sides.ends(edge);
        return Ok(HomologyVerdict::Edge(low, high));
    }
    Ok(HomologyVerdict::Accepted)
}
