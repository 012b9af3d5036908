//! The components of surfaces that lie in arrays.
ghost use Rattle.std.specs.Prelude.{◌≡◌, ◌<◌, length, IfOk};
ghost use Rattle.surf_model.specs.ComponentParts.{AreParts};
ghost use Rattle.surf_model.specs.FaceLists.{FaceList};
ghost use Rattle.surf_model.specs.Edges.{IsTableOf};
ghost use Rattle.closed_surfaces.specs.SignedSurfaces.{IsSigned};
ghost use Rattle.homotopy_arrays.specs.MeshArrays.{mesh_in_arrays};
ghost use Rattle.homotopy_arrays.specs.Surfaces.{EndsOn, IsSurfaceFault};
ghost use Rattle.homotopy_arrays.specs.ArrayComponents.{AreComponentsOf, AreNumbersOfParts, AreToldPlaces, IsToldPlace};

use crate::fault::Fault;
use crate::mesh::MeshArrays;
use crate::surface::surface_of_arrays;
use closed_surfaces::{SignedMesh, genera_of};
use manifold_check::{Parts, measure};
use std::alloc::{AllocError, Global};
use surf_model::{Faces, Sides, VertexName};

/// The numbers of a component of a surface.
#[repr(C)]
#[derive(Clone, Copy, Debug, PartialEq, Eq)]
pub struct ComponentNumbers {
    pub vertices: u32,
    pub edges: u32,
    pub faces: u32,
    pub genus: u32,
}

/// The components of a surface, and which of them each vertex is of.
#[derive(Drop)]
pub struct SurfaceComponents {
    /// The numbers of each component, in the order of their least vertices.
    pub numbers: Vec<ComponentNumbers>,
    /// For each vertex the place of its component in that order; for one that no face names, how many components there are.
    pub places: Vec<u32>,
}

/// The components of the orientable closed surface that the arrays are; or what is first wrong.
pub fn components_of_arrays(alloc: Global, mesh: MeshArrays<'_>) -> Result<SurfaceComponents, Fault>
    ensures { EndsOn (mesh_in_arrays mesh.entry) AreComponentsOf IsSurfaceFault result }
{
    let surface = surface_of_arrays(alloc, mesh)?;
    let found = components_of(alloc, &surface)?;
    Ok(found)
}

/// The components of a surface.
fn components_of(alloc: Global, surface: &SignedMesh) -> Result<SurfaceComponents, AllocError>
    requires { IsSigned surface.now }
    ensures { IfOk result (AreComponentsOf surface.now.faces) }
{
    let parts = Parts::build(alloc, &surface.faces, &surface.sides)?;
    let numbers = numbers_of(alloc, surface, &parts)?;
    let places = places_of(alloc, &surface.faces, &surface.sides, &parts)?;
    Ok(SurfaceComponents { numbers, places })
}

/// The numbers of each component.
fn numbers_of(
    alloc: Global,
    surface: &SignedMesh,
    parts: &Parts,
) -> Result<Vec<ComponentNumbers>, AllocError>
    requires signed { IsSigned surface.now }
    requires parts { AreParts surface.now.faces parts.now }
    ensures { IfOk result (λ numbers. AreNumbersOfParts surface.now.faces parts.now numbers.items) }
{
    let counted = measure(alloc, &surface.faces, &surface.sides, parts)?;
    let genera = genera_of(alloc, surface, parts)?;
    let mut numbers = Vec::with_capacity(alloc, counted.len())?;
    for part in 0..counted.len() {
        let own = counted[part];
        numbers.push(ComponentNumbers {
            vertices: own.vertices,
            edges: own.edges,
            faces: own.faces,
            genus: genera[part],
        })?;
    }
    Ok(numbers)
}

/// For each vertex the place of its component, and for one that no face names how many components there are.
fn places_of(
    alloc: Global,
    faces: &Faces,
    sides: &Sides,
    parts: &Parts,
) -> Result<Vec<u32>, AllocError>
    requires table { IsTableOf faces.now sides.now }
    requires parts { AreParts faces.now parts.now }
    ensures { IfOk result (λ places. AreToldPlaces faces.now parts.now places.items) }
{
    let mut places = Vec::with_capacity(alloc, faces.count() as usize)?;
    for vertex in 0..faces.count() {
        places.push(place_of(sides, parts, VertexName(vertex)))?;
    }
    Ok(places)
}

/// The place of the component of a vertex, or how many components there are, where no face names it.
fn place_of(sides: &Sides, parts: &Parts, vertex: VertexName) -> u32
    requires { vertex.0 < length parts.now.places }
    ensures { (mesh : FaceList) → IsTableOf mesh sides.now → IsToldPlace mesh parts.now vertex.0 result }
{
    if sides.used(vertex) {
        parts.part_of(vertex)
    } else {
        parts.len()
    }
}
