//! The classes of walks on a mesh that is kept.
ghost use Rattle.std.specs.Prelude.{◌≡◌};
ghost use Rattle.homotopy_c.specs.Kept.{IsMeshClassesCall};
ghost use Rattle.homotopy_c.specs.Told.{IsClassesCall};

use crate::codes;
use crate::handle::MeshHandle;
use crate::outcome::{Outcome, coded, told_walk};
use crate::room::{put_items, short_room};
use homotopy_arrays::{KeptMesh, NoClasses};
use std::alloc::Global;
use std::mem::replace;

/// For each walk on the mesh that the handle holds the number of its class: the least place of a walk that starts where it starts, ends
/// where it ends, and is homotopic to it. Walk after walk `walk_sizes` has the numbers of their vertices, and `walk_vertices` the vertices.
///
/// Where the call ends with another code than `DONE`, `classes` is left as it was.
#[unsafe(no_mangle)]
pub extern "C" fn homotopy_mesh_classes(
    alloc: Global,
    mesh: &mut MeshHandle,
    walk_sizes: &[u32],
    walk_vertices: &[u32],
    classes: &mut [usize],
    outcome: &mut Outcome,
)
    ensures same { mesh.new.kept ≡ mesh.old.kept }
    ensures told { IsMeshClassesCall mesh.old.kept walk_sizes.now walk_vertices.now classes.old classes.new outcome.new }
{
    match replace(mesh, MeshHandle::none()).into_kept(alloc) {
        None => *outcome = coded(codes::NO_MESH, 0, 0, 0),
        Some(mut kept) => {
            *outcome = classes_kept(&mut kept, walk_sizes, walk_vertices, classes);
            *mesh = MeshHandle::of(kept);
        }
    }
}

/// The classes of walks on the mesh that is kept.
fn classes_kept(
    kept: &mut KeptMesh,
    walk_sizes: &[u32],
    walk_vertices: &[u32],
    classes: &mut [usize],
) -> Outcome
    ensures same { kept.new ≡ kept.old }
    ensures told { IsClassesCall kept.old walk_sizes.now walk_vertices.now classes.old classes.new result }
{
    let wanted = walk_sizes.len();
    if classes.len() < wanted {
        return short_room(wanted);
    }
    match kept.classes(walk_sizes, walk_vertices) {
        Ok(given) => put_items(&given, classes, coded(codes::DONE, 0, 0, 0)),
        Err(NoClasses::Count) => coded(codes::WALK_COUNT, 0, 0, 0),
        Err(NoClasses::Walk { place, fault }) => told_walk(place as u64 + 1, fault),
        Err(NoClasses::OutOfMemory) => coded(codes::NO_MEMORY, 0, 0, 0),
    }
}
