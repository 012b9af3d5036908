//! How many vertices, edges and faces a mesh has, and the genus of each component of a surface.
ghost use Rattle.std.specs.Prelude.{ℕ, IfOk};
ghost use Rattle.surf_model.specs.FaceLists.{FaceList};
ghost use Rattle.surf_model.specs.ComponentParts.{AreParts};
ghost use Rattle.surf_model.specs.Edges.{IsTableOf};
ghost use Rattle.surf_model.specs.Genera.{AreNumbersOf, HasGenus};
ghost use Rattle.closed_surfaces.specs.ComponentGenera.{AreGeneraOf};
ghost use Rattle.closed_surfaces.specs.SignedSurfaces.{IsSigned};

use crate::signed_mesh::SignedMesh;
use halfedge_map::used_vertices;
use manifold_check::Parts;
use std::alloc::{AllocError, Global};
use surf_model::{Faces, Sides, SurfaceNumbers};

/// The numbers of a mesh with this table.
pub fn numbers_of(faces: &Faces, sides: &Sides) -> SurfaceNumbers
    requires { IsTableOf faces.now sides.now }
    ensures { AreNumbersOf faces.now result }
{
    SurfaceNumbers::of(used_vertices(faces, sides), sides.len(), faces.len())
}

/// The genus of each component of a surface, from numbers that are counted for all components at once.
pub fn genera_of(alloc: Global, surface: &SignedMesh, parts: &Parts) -> Result<Vec<u32>, AllocError>
    requires signed { IsSigned surface.now }
    requires parts { AreParts surface.now.faces parts.now }
    ensures { IfOk result (λ genera. AreGeneraOf surface.now.faces genera.items) }
{
    let all = manifold_check::measure(alloc, &surface.faces, &surface.sides, parts)?;
    let mut genera = Vec::with_capacity(alloc, all.len())?;
    for part in 0..parts.len() {
        let numbers = all[part as usize];
        genera.push(genus_of(numbers))?;
    }
    Ok(genera)
}

/// The genus of a mesh that has one: half of 2 less its Euler characteristic.
fn genus_of(numbers: SurfaceNumbers) -> u32
    requires { (mesh : FaceList) × (genus : ℕ) × AreNumbersOf mesh numbers × HasGenus mesh genus }
    ensures { (mesh : FaceList) → AreNumbersOf mesh numbers → HasGenus mesh result }
{
    let nodes = u64::from(numbers.vertices) + u64::from(numbers.faces);
    ((u64::from(numbers.edges) + 2 - nodes) / 2) as u32
}
