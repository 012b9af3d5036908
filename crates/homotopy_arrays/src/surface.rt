//! Surfaces that lie in arrays.
ghost use Rattle.homotopy_arrays.specs.MeshArrays.{mesh_in_arrays};
ghost use Rattle.homotopy_arrays.specs.Surfaces.{EndsOn, IsMeasureOf, IsSurfaceFault, IsSurfaceOf};

use crate::fault::Fault;
use crate::mesh::{MeshArrays, mesh_of_arrays};
use closed_surfaces::{SignedMesh, genera_of, numbers_of};
use manifold_check::Parts;
use std::alloc::Global;
use surf_model::SurfaceNumbers;

/// The numbers of a surface, and the genus of each of its components, in the order of their least vertices.
#[derive(Drop)]
pub struct Measured {
    pub numbers: SurfaceNumbers,
    pub genera: Vec<u32>,
}

/// The numbers of the orientable closed surface that the arrays are, and the genus of each of its components; or what is first wrong.
pub fn measure_arrays(alloc: Global, mesh: MeshArrays<'_>) -> Result<Measured, Fault>
    ensures { EndsOn (mesh_in_arrays mesh.entry) IsMeasureOf IsSurfaceFault result }
{
    let surface = surface_of_arrays(alloc, mesh)?;
    let parts = Parts::build(alloc, &surface.faces, &surface.sides)?;
    let numbers = numbers_of(&surface.faces, &surface.sides);
    let genera = genera_of(alloc, &surface, &parts)?;
    Ok(Measured { numbers, genera })
}

/// The orientable closed surface that the arrays are, in one piece or in several; or what is first wrong.
pub(crate) fn surface_of_arrays(alloc: Global, mesh: MeshArrays<'_>) -> Result<SignedMesh, Fault>
    ensures { EndsOn (mesh_in_arrays mesh.entry) IsSurfaceOf IsSurfaceFault result }
{
    let faces = mesh_of_arrays(alloc, mesh)?;
    Ok(SignedMesh::of(alloc, faces)?)
}
