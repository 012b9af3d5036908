//! Certificates of two walks.
ghost use Rattle.std.specs.Prelude.{◌≡◌};
ghost use Rattle.homotopy_arrays.specs.MeshArrays.{mesh_from_arrays};
ghost use Rattle.homotopy_c.specs.Certified.{IsCertifyCall, IsShownPut, IsTextPut, code_of, told_certify};

use crate::codes;
use crate::outcome::{Outcome, coded, told, told_walks};
use commands::{Certificate, OverLimit};
use homotopy_arrays::{CertifyFault, MeshArrays, certify_arrays, text_of};
use std::alloc::Global;

/// Whether two walks of the orientable closed surface that the arrays are are homotopic, with the text that shows it: what the command
/// `certify` prints. The code is that of the answer, and its number the length of the text; where the text has too little room the code is
/// `SHORT_ROOM`, and the numbers are the length that is wanted and the code of the answer.
///
/// Where the text does not fit, or there is none, `text` is left as it was.
#[unsafe(no_mangle)]
pub extern "C" fn homotopy_certify(
    alloc: Global,
    vertices: u32,
    sizes: &[u32],
    corners: &[u32],
    first: &[u32],
    second: &[u32],
    text: &mut [u8],
    outcome: &mut Outcome,
)
    ensures { IsCertifyCall (mesh_from_arrays vertices sizes.now corners.now) first.now second.now text.old text.new outcome.new }
{
    let mesh = MeshArrays {
        vertices,
        sizes,
        corners,
    };
    match certify_arrays(alloc, mesh, first, second) {
        Ok(shown) => *outcome = put_shown(alloc, shown, text),
        Err(fault) => *outcome = told_certify(fault),
    }
}

/// Writes the text of a certificate in front of an array, if it fits.
fn put_shown(alloc: Global, shown: Certificate, room: &mut [u8]) -> Outcome
    ensures { IsShownPut shown room.old room.new result }
{
    let code = code_of(&shown);
    match text_of(alloc, shown) {
        Ok(text) => put_text(text.bytes(), room, code),
        Err(_) => coded(codes::NO_MEMORY, 0, 0, 0),
    }
}

/// The code of the answer that a certificate shows.
fn code_of(shown: &Certificate) -> u8
    ensures { result ≡ code_of shown.now }
{
    match shown {
        Certificate::Moves(_) => codes::HOMOTOPIC,
        Certificate::Denial(_) => codes::DIFFERENT,
    }
}

/// Writes a text in front of an array, with this code and the text's length; or tells what length is wanted, where there is too little
/// room.
fn put_text(text: &[u8], room: &mut [u8], code: u8) -> Outcome
    ensures { IsTextPut text.now room.old room.new code result }
{
    if text.len() > room.len() {
        return coded(codes::SHORT_ROOM, text.len() as u64, u64::from(code), 0);
    }
    room[..text.len()].copy_from_slice(text);
    coded(code, text.len() as u64, 0, 0)
}

/// The outcome where two walks have no certificate.
fn told_certify(fault: CertifyFault) -> Outcome
    ensures { result ≡ told_certify fault }
{
    match fault {
        CertifyFault::Mesh(fault) => told(fault),
        CertifyFault::Walks(fault) => told_walks(fault),
        CertifyFault::Over(OverLimit::Sides(sides)) => {
            coded(codes::CERTIFY_SIDES, u64::from(sides), 0, 0)
        }
        CertifyFault::Over(OverLimit::Darts(darts)) => {
            coded(codes::CERTIFY_DARTS, u64::from(darts), 0, 0)
        }
    }
}
