//! What comes of numbers that are to show whether two walks are homologous.
ghost use Rattle.std.specs.Prelude.{◌≡◌};
ghost use Rattle.homotopy_arrays.specs.MeshArrays.{mesh_from_arrays};
ghost use Rattle.homotopy_c.specs.NumbersJudged.{IsVerifyHomologyCall, claim_of, judged_certificate, judged_numbers, told_verify_homology};

use crate::codes;
use crate::outcome::{Outcome, coded, told, told_walks};
use homology::HomologyVerdict;
use homotopy_arrays::{
    ArrayVerdict, HomologyClaim, MeshArrays, VerifyHomologyFault, verify_homology_arrays,
};
use std::alloc::Global;

/// What comes of numbers that are to show this answer of two walks of the mesh that the arrays are, which need be no surface. Of
/// `HOMOLOGOUS` they are to be a chain, one for each face; of `NOT_HOMOLOGOUS` a cocycle that separates the walks, one for each side. They
/// are accepted, or rejected for the first reason against them; or what is first wrong with the answer, the arrays or the walks.
#[unsafe(no_mangle)]
pub extern "C" fn homotopy_verify_homology(
    alloc: Global,
    vertices: u32,
    sizes: &[u32],
    corners: &[u32],
    first: &[u32],
    second: &[u32],
    answer: u32,
    numbers: &[i64],
    outcome: &mut Outcome,
)
    ensures { IsVerifyHomologyCall (mesh_from_arrays vertices sizes.now corners.now) first.now second.now answer numbers.now outcome.new }
{
    let Some(claim) = claim_of(answer) else {
        *outcome = coded(codes::UNKNOWN_ANSWER, u64::from(answer), 0, 0);
        return;
    };
    let mesh = MeshArrays {
        vertices,
        sizes,
        corners,
    };
    *outcome = match verify_homology_arrays(alloc, mesh, first, second, claim, numbers) {
        Ok(verdict) => judged_numbers(verdict),
        Err(fault) => told_verify_homology(fault),
    };
}

/// What numbers are to show, by the code of the answer.
fn claim_of(answer: u32) -> Option<HomologyClaim>
    ensures { result ≡ claim_of answer }
{
    if answer == u32::from(codes::HOMOLOGOUS) {
        Some(HomologyClaim::Homologous)
    } else if answer == u32::from(codes::NOT_HOMOLOGOUS) {
        Some(HomologyClaim::NotHomologous)
    } else {
        None
    }
}

/// The outcome that the verdict on an array is.
fn judged_numbers(verdict: ArrayVerdict) -> Outcome
    ensures { result ≡ judged_numbers verdict }
{
    match verdict {
        ArrayVerdict::Count => coded(codes::REJECTED_COUNT, 0, 0, 0),
        ArrayVerdict::Large(place) => coded(codes::REJECTED_LARGE, place as u64, 0, 0),
        ArrayVerdict::Uneven => coded(codes::REJECTED_UNEVEN, 0, 0, 0),
        ArrayVerdict::Judged(verdict) => judged_certificate(verdict),
    }
}

/// The outcome that the verdict on a chain or a cocycle is.
fn judged_certificate(verdict: HomologyVerdict) -> Outcome
    ensures { result ≡ judged_certificate verdict }
{
    match verdict {
        // It does not come, since an array has its numbers by the faces that there are.
        HomologyVerdict::Face(_) => coded(codes::REJECTED_COUNT, 0, 0, 0),
        HomologyVerdict::Edge(low, high) => coded(
            codes::REJECTED_BOUNDARY,
            u64::from(low.0),
            u64::from(high.0),
            0,
        ),
        HomologyVerdict::Sum(face) => coded(codes::REJECTED_SUM, u64::from(face.0), 0, 0),
        HomologyVerdict::Zero => coded(codes::REJECTED_ZERO, 0, 0, 0),
        HomologyVerdict::Accepted => coded(codes::ACCEPTED, 0, 0, 0),
    }
}

/// The outcome where nothing comes of numbers.
fn told_verify_homology(fault: VerifyHomologyFault) -> Outcome
    ensures { result ≡ told_verify_homology fault }
{
    match fault {
        VerifyHomologyFault::Mesh(fault) => told(fault),
        VerifyHomologyFault::Walks(fault) => told_walks(fault),
    }
}
