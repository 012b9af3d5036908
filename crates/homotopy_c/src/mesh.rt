//! A mesh that is kept from call to call.
ghost use Rattle.std.specs.Prelude.{◌≡◌, None, IfOk};
ghost use Rattle.homotopy_arrays.specs.Compact.{IsCompactFault, IsCompactKept};
ghost use Rattle.homotopy_arrays.specs.Decisions.{IsKept};
ghost use Rattle.homotopy_arrays.specs.MeshArrays.{mesh_in_arrays, mesh_from_arrays};
ghost use Rattle.homotopy_arrays.specs.Surfaces.{EndsOn, IsSurfaceFault};
ghost use Rattle.homotopy_c.specs.Kept.{IsAskedCall, IsMeshAnswersCall, IsMeshDecideCall, IsMeshNewAnyCall, IsMeshNewCall, TellsHeld};

use crate::codes;
use crate::decide::put_bytes;
use crate::handle::MeshHandle;
use crate::outcome::{HasByte, Outcome, coded, told};
use crate::room::short_room;
use homotopy_arrays::{Fault, KeptMesh, MeshArrays, PairAnswer, WalkAnswer};
use std::alloc::{AllocError, Global};
use std::mem::replace;

/// Keeps the orientable closed surface that the arrays are. What the handle held before is given back then; where the call ends with
/// another code than `DONE`, it still holds that.
#[unsafe(no_mangle)]
pub extern "C" fn homotopy_mesh_new(
    alloc: Global,
    vertices: u32,
    sizes: &[u32],
    corners: &[u32],
    mesh: &mut MeshHandle,
    outcome: &mut Outcome,
)
    ensures { IsMeshNewCall (mesh_from_arrays vertices sizes.now corners.now) mesh.old.kept mesh.new.kept outcome.new }
{
    let arrays = MeshArrays {
        vertices,
        sizes,
        corners,
    };
    *outcome = hold(alloc, keep(alloc, arrays), mesh);
}

/// Keeps the compact surface that the arrays are, in any number of pieces, closed or with boundary, orientable or not. All else is as in
/// `homotopy_mesh_new`; the codes for what is no such surface, or one too large, are those of `homotopy_decide_any`.
#[unsafe(no_mangle)]
pub extern "C" fn homotopy_mesh_new_any(
    alloc: Global,
    vertices: u32,
    sizes: &[u32],
    corners: &[u32],
    mesh: &mut MeshHandle,
    outcome: &mut Outcome,
)
    ensures { IsMeshNewAnyCall (mesh_from_arrays vertices sizes.now corners.now) mesh.old.kept mesh.new.kept outcome.new }
{
    let arrays = MeshArrays {
        vertices,
        sizes,
        corners,
    };
    *outcome = hold(alloc, keep_any(alloc, arrays), mesh);
}

/// Whether the two walks of each pair are homotopic on the mesh that the handle holds, as `homotopy_decide_any` tells of its arrays.
#[unsafe(no_mangle)]
pub extern "C" fn homotopy_mesh_decide(
    alloc: Global,
    mesh: &mut MeshHandle,
    walk_sizes: &[u32],
    walk_vertices: &[u32],
    answers: &mut [u8],
    outcome: &mut Outcome,
)
    ensures same { mesh.new.kept ≡ mesh.old.kept }
    ensures told { IsMeshDecideCall mesh.old.kept walk_sizes.now walk_vertices.now answers.old answers.new outcome.new }
{
    *outcome = answer_held::<PairAnswer>(alloc, mesh, walk_sizes, walk_vertices, answers);
}

/// Gives back the mesh that the handle holds, if any. It holds none then.
#[unsafe(no_mangle)]
pub extern "C" fn homotopy_mesh_free(alloc: Global, mesh: &mut MeshHandle)
    ensures { mesh.new.kept ≡ None }
{
    drop(replace(mesh, MeshHandle::none()).into_kept(alloc));
}

/// The orientable closed surface that the arrays are, on the heap; or what is first wrong.
fn keep(alloc: Global, arrays: MeshArrays<'_>) -> Result<Box<KeptMesh>, Fault>
    ensures { EndsOn (mesh_in_arrays arrays.entry) (λ mesh kept. IsKept mesh kept.value) IsSurfaceFault result }
{
    let kept = KeptMesh::of(alloc, arrays)?;
    Ok(on_heap(alloc, kept)?)
}

/// The compact surface that the arrays are, on the heap; or what is first wrong.
fn keep_any(alloc: Global, arrays: MeshArrays<'_>) -> Result<Box<KeptMesh>, Fault>
    ensures { EndsOn (mesh_in_arrays arrays.entry) (λ mesh kept. IsCompactKept mesh kept.value) IsCompactFault result }
{
    let kept = KeptMesh::of_any(alloc, arrays)?;
    Ok(on_heap(alloc, kept)?)
}

/// Has the handle hold a mesh that was made, and gives back what it held before; or tells what is wrong.
fn hold(alloc: Global, made: Result<Box<KeptMesh>, Fault>, mesh: &mut MeshHandle) -> Outcome
    ensures { TellsHeld made mesh.old.kept mesh.new.kept result }
{
    match made {
        Ok(kept) => {
            drop(replace(mesh, MeshHandle::of(kept)).into_kept(alloc));
            coded(codes::DONE, 0, 0, 0)
        }
        Err(fault) => told(fault),
    }
}

/// A mesh on the heap.
fn on_heap(alloc: Global, kept: KeptMesh) -> Result<Box<KeptMesh>, AllocError>
    ensures { IfOk result (λ there. there.value ≡ kept) }
{
    Ok(Box::new(alloc, kept)?)
}

/// The bytes of the answers on pairs of walks, on the mesh that the handle holds.
pub(crate) fn answer_held<A: HasByte + WalkAnswer + Copy>(
    alloc: Global,
    mesh: &mut MeshHandle,
    walk_sizes: &[u32],
    walk_vertices: &[u32],
    answers: &mut [u8],
) -> Outcome
    ensures same { mesh.new.kept ≡ mesh.old.kept }
    ensures told { IsMeshAnswersCall A.On A.Is A.code mesh.old.kept walk_sizes.now walk_vertices.now answers.old answers.new result }
{
    match replace(mesh, MeshHandle::none()).into_kept(alloc) {
        None => coded(codes::NO_MESH, 0, 0, 0),
        Some(mut kept) => {
            let outcome = answer_kept::<A>(&mut kept, walk_sizes, walk_vertices, answers);
            *mesh = MeshHandle::of(kept);
            outcome
        }
    }
}

/// The bytes of the answers on pairs of walks, on the mesh that is kept.
fn answer_kept<A: HasByte + WalkAnswer + Copy>(
    kept: &mut KeptMesh,
    walk_sizes: &[u32],
    walk_vertices: &[u32],
    answers: &mut [u8],
) -> Outcome
    ensures same { kept.new ≡ kept.old }
    ensures told { IsAskedCall A.On A.Is A.code kept.old walk_sizes.now walk_vertices.now answers.old answers.new result }
{
    let wanted = walk_sizes.len() / 2;
    if answers.len() < wanted {
        return short_room(wanted);
    }
    put_bytes(kept.answers::<A>(walk_sizes, walk_vertices), answers)
}
