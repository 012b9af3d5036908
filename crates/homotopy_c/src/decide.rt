//! Whether walks are homotopic, pair by pair.
ghost use Rattle.std.specs.Prelude.{◌≡◌, ◌≤◌, length, map, IfOk};
ghost use Rattle.homotopy_arrays.specs.MeshArrays.{mesh_from_arrays};
ghost use Rattle.homotopy_c.specs.Told.{IsDecideCall, TellsBytes, in_front};

use crate::codes;
use crate::outcome::{HasByte, Outcome, coded, told};
use crate::room::short_room;
use homotopy_arrays::{Fault, MeshArrays, decide_arrays};
use std::alloc::Global;

/// Whether the two walks of each pair are homotopic on the surface that the arrays are: a byte for each pair, which is the code of its
/// answer or of what is wrong with it. Walk after walk `walk_sizes` has the numbers of their vertices, two for each pair, and
/// `walk_vertices` the vertices.
///
/// Where the call ends with another code than `DONE`, `answers` is left as it was.
#[unsafe(no_mangle)]
pub extern "C" fn homotopy_decide(
    alloc: Global,
    vertices: u32,
    sizes: &[u32],
    corners: &[u32],
    walk_sizes: &[u32],
    walk_vertices: &[u32],
    answers: &mut [u8],
    outcome: &mut Outcome,
)
    ensures { IsDecideCall (mesh_from_arrays vertices sizes.now corners.now) walk_sizes.now walk_vertices.now answers.old answers.new
        outcome.new }
{
    let wanted = walk_sizes.len() / 2;
    if answers.len() < wanted {
        *outcome = short_room(wanted);
        return;
    }
    let mesh = MeshArrays {
        vertices,
        sizes,
        corners,
    };
    *outcome = put_bytes(
        decide_arrays(alloc, mesh, walk_sizes, walk_vertices),
        answers,
    );
}

/// Writes the bytes of answers in front of an array, or tells what is wrong.
pub(crate) fn put_bytes<A: HasByte + Copy>(
    decided: Result<Vec<A>, Fault>,
    room: &mut [u8],
) -> Outcome
    requires { IfOk decided (λ given. length given.items ≤ length room.old) }
    ensures { TellsBytes A.code decided room.old room.new result }
{
    match decided {
        Ok(given) => {
            put_answers(&given, room);
            coded(codes::DONE, 0, 0, 0)
        }
        Err(fault) => told(fault),
    }
}

/// Writes the bytes of answers in front of an array.
fn put_answers<A: HasByte + Copy>(given: &[A], room: &mut [u8])
    requires { length given.now ≤ length room.old }
    ensures { room.new ≡ in_front (map A.code given.now) room.old }
{
    for k in 0..given.len() {
        room[k] = given[k].byte();
    }
}
