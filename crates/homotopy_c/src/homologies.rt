//! Whether two walks are homologous.
ghost use Rattle.std.specs.Prelude.{◌≡◌};
ghost use Rattle.homotopy_arrays.specs.MeshArrays.{mesh_from_arrays};
ghost use Rattle.homotopy_c.specs.Homologous.{AreNumbersPut, IsHomologyCall, TellsHomology, answer_code, homology_numbers_of, told_homology};

use crate::codes;
use crate::outcome::{Outcome, coded, told, told_walks};
use homotopy_arrays::{HomologyFault, HomologyNumbers, MeshArrays, homology_arrays};
use std::alloc::Global;

/// Whether two walks of the orientable closed surface that the arrays are are homologous, with numbers that show it. Where they are, the
/// code is `HOMOLOGOUS`, and there is a number for each face: at each edge the sides of the faces, each with the number of its face, add up
/// to what the first walk runs along it more than the second. Where they are not, the code is `NOT_HOMOLOGOUS`, and there is a number for
/// each corner: that of the side from it to the next corner of its face. The two sides of an edge have the same number where they run alike
/// and opposite ones where they do not, round each face they add up to 0, and along the two walks to different sums.
///
/// The number of the code is how many were written. Where `numbers` has too little room the code is `SHORT_ROOM`, and the numbers are how
/// many are wanted and the code of the answer. There, and where there is no answer, `numbers` is left as it was.
#[unsafe(no_mangle)]
pub extern "C" fn homotopy_homology(
    alloc: Global,
    vertices: u32,
    sizes: &[u32],
    corners: &[u32],
    first: &[u32],
    second: &[u32],
    numbers: &mut [i64],
    outcome: &mut Outcome,
)
    ensures { IsHomologyCall (mesh_from_arrays vertices sizes.now corners.now) first.now second.now numbers.old numbers.new outcome.new }
{
    let mesh = MeshArrays {
        vertices,
        sizes,
        corners,
    };
    *outcome = put_homology(homology_arrays(alloc, mesh, first, second), numbers);
}

/// How a question about homology ended, with what shows the answer in front of an array.
pub(crate) fn put_homology(end: Result<HomologyNumbers, HomologyFault>, room: &mut [i64]) -> Outcome
    ensures { TellsHomology end room.old room.new result }
{
    match end {
        Ok(shown) => put_shown(&shown, room),
        Err(fault) => told_homology(fault),
    }
}

/// Writes what shows the answer in front of an array, if it fits.
fn put_shown(shown: &HomologyNumbers, room: &mut [i64]) -> Outcome
    ensures { AreNumbersPut (homology_numbers_of shown.now) room.old room.new (answer_code shown.now) result }
{
    match shown {
        HomologyNumbers::Chain(numbers) => put_numbers(numbers, room, codes::HOMOLOGOUS),
        HomologyNumbers::Cocycle(numbers) => put_numbers(numbers, room, codes::NOT_HOMOLOGOUS),
    }
}

/// Writes numbers in front of an array, with this code and how many they are; or tells how many are wanted, where there is too little room.
fn put_numbers(numbers: &[i64], room: &mut [i64], code: u8) -> Outcome
    ensures { AreNumbersPut numbers.now room.old room.new code result }
{
    if numbers.len() > room.len() {
        return coded(codes::SHORT_ROOM, numbers.len() as u64, u64::from(code), 0);
    }
    room[..numbers.len()].copy_from_slice(numbers);
    coded(code, numbers.len() as u64, 0, 0)
}

/// The outcome where nothing is shown of two walks.
fn told_homology(fault: HomologyFault) -> Outcome
    ensures { result ≡ told_homology fault }
{
    match fault {
        HomologyFault::Mesh(fault) => told(fault),
        HomologyFault::Walks(fault) => told_walks(fault),
        HomologyFault::Darts(darts) => coded(codes::HOMOLOGY_DARTS, u64::from(darts), 0, 0),
    }
}
