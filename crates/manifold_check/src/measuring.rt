//! How many vertices, edges and faces each component has.
ghost use Rattle.std.specs.Prelude.{◌≡◌, ◌<◌, ℕ, List, length, slice_index, slice_index_or, IfOk};
ghost use Rattle.surf_model.specs.FaceLists.{is_used};
ghost use Rattle.surf_model.specs.Edges.{Edge, IsTableOf};
ghost use Rattle.surf_model.specs.ComponentParts.{AreParts, component_mesh};
ghost use Rattle.surf_model.specs.Genera.{AreNumbersOf};
ghost use Rattle.surf_model.specs.Numbers.{count_below};
ghost use Rattle.surf_model.specs.declared.numbers.SurfaceNumbers.{SurfaceNumbers};

use crate::parts::Parts;
use std::alloc::{AllocError, Global};
use surf_model::{EdgeName, Faces, Sides, SurfaceNumbers, VertexName};

/// The numbers of each component, in order. It looks once at each vertex and once at each edge of the mesh, however many
/// components there are.
pub fn measure(
    alloc: Global,
    faces: &Faces,
    sides: &Sides,
    parts: &Parts,
) -> Result<Vec<SurfaceNumbers>, AllocError>
    requires table { IsTableOf faces.now sides.now }
    requires parts { AreParts faces.now parts.now }
    ensures count { IfOk result (λ all. length all.items ≡ length parts.now.components) }
    ensures numbers { IfOk result (λ all. (k : ℕ) (d : SurfaceNumbers) → k < length parts.now.components
        → AreNumbersOf (component_mesh faces.now parts.now k) (slice_index_or all.items k d)) }
{
    let vertices = count_vertices(alloc, faces, sides, parts)?;
    let edges = count_edges(alloc, faces, sides, parts)?;
    let mut all = Vec::with_capacity(alloc, parts.len() as usize)?;
    for part in 0..parts.len() {
        all.push(SurfaceNumbers::of(
            vertices[part as usize],
            edges[part as usize],
            parts.size(part),
        ))?;
    }
    Ok(all)
}

/// For each component the number of its vertices.
fn count_vertices(
    alloc: Global,
    faces: &Faces,
    sides: &Sides,
    parts: &Parts,
) -> Result<Vec<u32>, AllocError>
    requires table { IsTableOf faces.now sides.now }
    requires parts { AreParts faces.now parts.now }
    ensures len { IfOk result (λ counts. length counts.items ≡ length parts.now.components) }
    ensures counted { IfOk result (λ counts. (k : ℕ) → k < length parts.now.components
        → slice_index counts.items k ≡ count_below (is_used (component_mesh faces.now parts.now k)) faces.now.count) }
{
    let mut counts = vec![in alloc; 0u32; parts.len() as usize]?;
    for vertex in 0..faces.count() {
        if sides.used(VertexName(vertex)) {
            counts[parts.part_of(VertexName(vertex)) as usize] += 1;
        }
    }
    Ok(counts)
}

/// For each component the number of its edges.
fn count_edges(
    alloc: Global,
    faces: &Faces,
    sides: &Sides,
    parts: &Parts,
) -> Result<Vec<u32>, AllocError>
    requires table { IsTableOf faces.now sides.now }
    requires parts { AreParts faces.now parts.now }
    ensures len { IfOk result (λ counts. length counts.items ≡ length parts.now.components) }
    ensures counted { IfOk result (λ counts. (k : ℕ) (table : List Edge) → k < length parts.now.components
        → IsTableOf (component_mesh faces.now parts.now k) table → slice_index counts.items k ≡ length table) }
{
    // The proof reads what holds of every face list.
    let _ = faces.len();
    let mut counts = vec![in alloc; 0u32; parts.len() as usize]?;
    for edge in 0..sides.len() {
        let (low, _) = sides.ends(EdgeName(edge));
        counts[parts.part_of(low) as usize] += 1;
    }
    Ok(counts)
}
