//! The components of a surface.
ghost use Rattle.homotopy_arrays.specs.MeshArrays.{mesh_from_arrays};
ghost use Rattle.homotopy_c.specs.ComponentsTold.{AreComponentsPut, IsComponentsCall};

use crate::codes;
use crate::outcome::{Outcome, coded, told};
use homotopy_arrays::{ComponentNumbers, MeshArrays, SurfaceComponents, components_of_arrays};
use std::alloc::Global;

/// The components of the orientable closed surface that the arrays are, in the order of their least vertices: how many vertices, edges and
/// faces each has, and its genus; and for each vertex the place of its component in that order, counted from 0, or how many components
/// there are, where no face names the vertex. Or what is first wrong.
///
/// The number of the code `DONE` is how many components there are. Where one of the arrays has too little room the code is `SHORT_ROOM`,
/// and the numbers are the lengths that are wanted of both. There, and where there is no answer, both are left as they were.
#[unsafe(no_mangle)]
pub extern "C" fn homotopy_components(
    alloc: Global,
    vertices: u32,
    sizes: &[u32],
    corners: &[u32],
    components: &mut [ComponentNumbers],
    places: &mut [u32],
    outcome: &mut Outcome,
)
    ensures { IsComponentsCall (mesh_from_arrays vertices sizes.now corners.now) components.old components.new places.old places.new
        outcome.new }
{
    let mesh = MeshArrays {
        vertices,
        sizes,
        corners,
    };
    match components_of_arrays(alloc, mesh) {
        Ok(found) => *outcome = put_components(&found, components, places),
        Err(fault) => *outcome = told(fault),
    }
}

/// Writes both in front of their arrays, or tells how long these are to be, where one of them is too short.
fn put_components(
    found: &SurfaceComponents,
    components: &mut [ComponentNumbers],
    places: &mut [u32],
) -> Outcome
    ensures { AreComponentsPut found.now components.old components.new places.old places.new result }
{
    let count = found.numbers.len();
    let vertices = found.places.len();
    if count > components.len() || vertices > places.len() {
        return coded(codes::SHORT_ROOM, count as u64, vertices as u64, 0);
    }
    components[..count].copy_from_slice(&found.numbers);
    places[..vertices].copy_from_slice(&found.places);
    coded(codes::DONE, count as u64, 0, 0)
}
