//! Whether two walks of a surface that may have boundary are homologous.
ghost use Rattle.homotopy_arrays.specs.MeshArrays.{mesh_from_arrays};
ghost use Rattle.homotopy_c.specs.Homologous.{IsHomologyAnyCall};

use crate::homologies::put_homology;
use crate::outcome::Outcome;
use homotopy_arrays::{MeshArrays, homology_any_arrays};
use std::alloc::Global;

/// What `homotopy_homology` tells, on any orientable compact surface: in one piece or in several, closed or with boundary. Where the mesh
/// is none, the code is that of the first condition that fails, or of the limit that its double is beyond, or `NOT_ORIENTABLE`.
///
/// Where there is no answer, or too little room, `numbers` is left as it was.
#[unsafe(no_mangle)]
pub extern "C" fn homotopy_homology_any(
    alloc: Global,
    vertices: u32,
    sizes: &[u32],
    corners: &[u32],
    first: &[u32],
    second: &[u32],
    numbers: &mut [i64],
    outcome: &mut Outcome,
)
    ensures { IsHomologyAnyCall (mesh_from_arrays vertices sizes.now corners.now) first.now second.now numbers.old numbers.new outcome.new }
{
    let mesh = MeshArrays {
        vertices,
        sizes,
        corners,
    };
    *outcome = put_homology(homology_any_arrays(alloc, mesh, first, second), numbers);
}
