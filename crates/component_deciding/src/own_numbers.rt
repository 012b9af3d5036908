//! The vertices of each component, numbered apart.
ghost use Rattle.std.specs.Prelude.{IfOk};
ghost use Rattle.closed_surfaces.specs.SignedSurfaces.{IsSigned};
ghost use Rattle.component_deciding.specs.OwnVertices.{AreOwnNumbers};
ghost use Rattle.surf_model.specs.ComponentParts.{AreParts};

use closed_surfaces::SignedMesh;
use manifold_check::Parts;
use std::alloc::{AllocError, Global};
use surf_model::VertexName;

/// The numbers of vertices in their components.
#[derive(Drop)]
pub(crate) struct OwnNumbers {
    /// For each used vertex its number among the vertices of its component, and 0 for one that no face names.
    pub(crate) numbers: Vec<u32>,
    /// For each component how many vertices it has.
    pub(crate) counts: Vec<u32>,
}

/// Numbers the vertices of each component in rising order, in one pass over all of them.
pub(crate) fn number_vertices(
    alloc: Global,
    mesh: &SignedMesh,
    parts: &Parts,
) -> Result<OwnNumbers, AllocError>
    requires signed { IsSigned mesh.now }
    requires parts { AreParts mesh.now.faces parts.now }
    ensures { IfOk result (AreOwnNumbers mesh.now.faces parts.now) }
{
    let count = mesh.faces.count();
    let mut counts = vec![in alloc; 0u32; parts.len() as usize]?;
    let mut numbers = Vec::with_capacity(alloc, count as usize)?;
    for vertex in 0..count {
        let mut number = 0;
        if mesh.sides.used(VertexName(vertex)) {
            let place = parts.part_of(VertexName(vertex)) as usize;
            number = counts[place];
            counts[place] += 1;
        }
        numbers.push(number)?;
    }
    Ok(OwnNumbers { numbers, counts })
}
