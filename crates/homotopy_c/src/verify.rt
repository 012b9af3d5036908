//! What comes of a certificate.
ghost use Rattle.std.specs.Prelude.{◌≡◌};
ghost use Rattle.homotopy_arrays.specs.MeshArrays.{mesh_from_arrays};
ghost use Rattle.homotopy_c.specs.Judged.{IsVerifyCall, judged, judged_denial, judged_labels, judged_moves, move_code, told_certificate, told_verify};

use crate::codes;
use crate::outcome::{Outcome, coded, told, told_walks};
use homotopy_arrays::{Judgement, MeshArrays, VerifyFault, verify_arrays};
use labellings::{DenialVerdict, LabelFault};
use move_checker::{MoveFault, Verdict};
use std::alloc::Global;
use walk_files::CertFault;

/// What comes of the certificate that the bytes spell, between two walks of the mesh that the arrays are, which need be no surface: it is
/// accepted, or rejected for the first reason against it; or what is first wrong with the arrays, the walks or the text.
#[unsafe(no_mangle)]
pub extern "C" fn homotopy_verify(
    alloc: Global,
    vertices: u32,
    sizes: &[u32],
    corners: &[u32],
    first: &[u32],
    second: &[u32],
    certificate: &[u8],
    outcome: &mut Outcome,
)
    ensures { IsVerifyCall (mesh_from_arrays vertices sizes.now corners.now) first.now second.now certificate.now outcome.new }
{
    let mesh = MeshArrays {
        vertices,
        sizes,
        corners,
    };
    *outcome = match verify_arrays(alloc, mesh, first, second, certificate) {
        Ok(judgement) => judged(judgement),
        Err(fault) => told_verify(fault),
    };
}

/// The outcome that a judgement is.
fn judged(judgement: Judgement) -> Outcome
    ensures { result ≡ judged judgement }
{
    match judgement {
        Judgement::Moves(verdict) => judged_moves(verdict),
        Judgement::Denial(verdict) => judged_denial(verdict),
    }
}

/// The outcome that the verdict on a list of moves is.
fn judged_moves(verdict: Verdict) -> Outcome
    ensures { result ≡ judged_moves verdict }
{
    match verdict {
        Verdict::Accepted => coded(codes::ACCEPTED, 0, 0, 0),
        Verdict::Peak => coded(codes::REJECTED_PEAK, 0, 0, 0),
        Verdict::AtMove { number, fault } => coded(move_code(fault), number, 0, 0),
        Verdict::End => coded(codes::REJECTED_END, 0, 0, 0),
    }
}

/// The code of why a move is refused.
fn move_code(fault: MoveFault) -> u8
    ensures { result ≡ move_code fault }
{
    match fault {
        MoveFault::Place => codes::REJECTED_MOVE_PLACE,
        MoveFault::NoEdge => codes::REJECTED_MOVE_EDGE,
        MoveFault::NotSpur => codes::REJECTED_MOVE_SPUR,
        MoveFault::NotOnFace => codes::REJECTED_MOVE_FACE,
        MoveFault::OverPeak => codes::REJECTED_MOVE_PEAK,
    }
}

/// The outcome that the verdict on a denial is.
fn judged_denial(verdict: DenialVerdict) -> Outcome
    ensures { result ≡ judged_denial verdict }
{
    match verdict {
        DenialVerdict::Accepted => coded(codes::ACCEPTED, 0, 0, 0),
        DenialVerdict::Label(fault) => judged_labels(fault),
        DenialVerdict::WordWrong { walk } => coded(codes::REJECTED_WORD, u64::from(walk), 0, 0),
        DenialVerdict::Equal => coded(codes::REJECTED_EQUAL, 0, 0, 0),
    }
}

/// The outcome that the first rule of good labellings which fails is.
fn judged_labels(fault: LabelFault) -> Outcome
    ensures { result ≡ judged_labels fault }
{
    match fault {
        LabelFault::Shape => coded(codes::REJECTED_SHAPE, 0, 0, 0),
        LabelFault::Degree { degree } => coded(codes::REJECTED_DEGREE, u64::from(degree), 0, 0),
        LabelFault::PlaceTwice { place } => coded(codes::REJECTED_PLACE, u64::from(place), 0, 0),
        LabelFault::EdgeRule { low, high } => coded(
            codes::REJECTED_EDGE,
            u64::from(low.0),
            u64::from(high.0),
            0,
        ),
        LabelFault::OutOfMemory => coded(codes::NO_MEMORY, 0, 0, 0),
    }
}

/// The outcome where nothing comes of a certificate.
fn told_verify(fault: VerifyFault) -> Outcome
    ensures { result ≡ told_verify fault }
{
    match fault {
        VerifyFault::Mesh(fault) => told(fault),
        VerifyFault::Walks(fault) => told_walks(fault),
        VerifyFault::Long => coded(codes::LONG_CERTIFICATE, 0, 0, 0),
        VerifyFault::Certificate(fault) => told_certificate(fault),
    }
}

/// The outcome that what is first wrong with the text of a certificate is.
fn told_certificate(fault: CertFault) -> Outcome
    ensures { result ≡ told_certificate fault }
{
    match fault {
        CertFault::NoHead => coded(codes::NO_HEAD, 0, 0, 0),
        CertFault::Bad { line } => coded(codes::BAD_LINE, line, 0, 0),
        CertFault::Ended { line } => coded(codes::ENDED_EARLY, line, 0, 0),
        CertFault::Extra { line } => coded(codes::EXTRA_LINE, line, 0, 0),
        CertFault::Peak { line } => coded(codes::LARGE_PEAK, line, 0, 0),
        CertFault::OutOfMemory => coded(codes::NO_MEMORY, 0, 0, 0),
    }
}
