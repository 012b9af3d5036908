//! Whether any two used vertices are joined by a walk.
ghost use Rattle.std.specs.Prelude.{◌≡◌, ◌<◌, ℕ, length, slice_index, IsTrue, IfOk, IfSome, IfNone, MatchOption, OnOk};
ghost use Rattle.surf_model.specs.FaceLists.{FaceList, IsFaceList, is_used};
ghost use Rattle.surf_model.specs.Edges.{IsTableOf};
ghost use Rattle.surf_model.specs.Components.{EachTwoAreJoined};
ghost use Rattle.connectivity.specs.Classes.{AreLeastMembers};
ghost use Rattle.connectivity.specs.Joined.{AreLeastApart, IsLeastUsed};
ghost use Rattle.connectivity.specs.Partitions.{AreComponents, IsLeastElsewhere};

use crate::classes::Classes;
use std::alloc::{AllocError, Global};
use surf_model::{EdgeName, Faces, Sides, VertexName};

/// The least used vertex, and the least used vertex that no walk joins to it; nothing where all used vertices are joined.
pub fn vertices_apart(
    alloc: Global,
    faces: &Faces,
    sides: &Sides,
) -> Result<Option<(VertexName, VertexName)>, AllocError>
    requires table { IsTableOf faces.now sides.now }
    ensures { IfOk result (λ found.
        MatchOption found (EachTwoAreJoined faces.now) (λ pair. AreLeastApart faces.now pair.0.0 pair.1.0)) }
{
    let least = components(alloc, faces, sides)?;
    let Some(vertex) = least_used(faces, sides) else {
        return Ok(None);
    };
    match least_elsewhere(faces, sides, &least, vertex) {
        Some(other) => Ok(Some((vertex, other))),
        None => Ok(None),
    }
}

/// For each vertex the least one that is joined to it by edges.
pub fn components(alloc: Global, faces: &Faces, sides: &Sides) -> Result<Vec<u32>, AllocError>
    requires table { IsTableOf faces.now sides.now }
    ensures count { IfOk result (λ least. length least.items ≡ faces.now.count) }
    ensures components { IfOk result (λ least. AreComponents faces.now least.items) }
    ensures members { IfOk result (λ least. AreLeastMembers least.items) }
    // What holds of every face list.
    ensures valid { OnOk result (IsFaceList faces.now) }
{
    let mut vertices = Classes::new(alloc, faces.count())?;
    for edge in 0..sides.len() {
        let (low, high) = sides.ends(EdgeName(edge));
        vertices.join(low.0, high.0);
    }
    Ok(vertices.into_least())
}

/// The least vertex that a face names.
fn least_used(faces: &Faces, sides: &Sides) -> Option<VertexName>
    requires table { IsTableOf faces.now sides.now }
    ensures some { IfSome result (λ vertex. IsLeastUsed faces.now vertex.0) }
    ensures none { IfNone result ((v : ℕ) → IsTrue (is_used faces.now v) → ⊥) }
{
    for vertex in 0..faces.count() {
        if sides.used(VertexName(vertex)) {
            return Some(VertexName(vertex));
        }
    }
    None
}

/// The least used vertex whose entry is not that of a given vertex.
fn least_elsewhere(
    faces: &Faces,
    sides: &Sides,
    least: &[u32],
    vertex: VertexName,
) -> Option<VertexName>
    requires table { IsTableOf faces.now sides.now }
    requires count { length least.now ≡ faces.now.count }
    requires vertex { vertex.0 < faces.now.count }
    ensures some { IfSome result (λ other. IsLeastElsewhere faces.now least.now vertex.0 other.0) }
    ensures none { IfNone result ((v : ℕ) → v < faces.now.count → IsTrue (is_used faces.now v)
        → slice_index least.now v ≡ slice_index least.now vertex.0) }
{
    for other in 0..faces.count() {
        if least[other as usize] != least[vertex.0 as usize] && sides.used(VertexName(other)) {
            return Some(VertexName(other));
        }
    }
    None
}
