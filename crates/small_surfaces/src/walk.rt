//! Walks given by their vertices.
ghost use Rattle.std.specs.Prelude.{◌≡◌, ◌<◌, ◌↔◌, ◌^◌, length, IsTrue, IfOk, IfSome, IfNone};
ghost use Rattle.surf_model.specs.Walks.{IsWalk};

use halfedge_map::Surface;
use std::alloc::{AllocError, Global};
use surf_model::{VertexName, Walk};

/// The walk along these vertices; none where they are no walk of the surface.
pub fn walk_on(
    alloc: Global,
    surface: &Surface,
    vertices: &[u32],
) -> Result<Option<Walk>, AllocError>
    requires short { length vertices.now < 2 ^ 31 }
    ensures walk { IfOk result (λ found. IfSome found (λ walk. (walk ≡ vertices.now) × IsWalk surface.now.mesh walk)) }
    ensures none { IfOk result (λ found. IfNone found (IsWalk surface.now.mesh vertices.now → ⊥)) }
{
    if !is_walk(surface, vertices) {
        return Ok(None);
    }
    let mut walk = Walk::new(alloc, VertexName(vertices[0]))?;
    for place in 1..vertices.len() {
        walk.push(VertexName(vertices[place]))?;
    }
    Ok(Some(walk))
}

/// Whether the vertices are a walk of the surface: some, each used, and neighbours are joined by an edge.
fn is_walk(surface: &Surface, vertices: &[u32]) -> bool
    ensures { IsTrue result ↔ IsWalk surface.now.mesh vertices.now }
{
    for place in 0..vertices.len() {
        let vertex = VertexName(vertices[place]);
        if !surface.sides().used(vertex) {
            return false;
        }
        if place > 0
            && surface
                .dart_between(VertexName(vertices[place - 1]), vertex)
                .is_none()
        {
            return false;
        }
    }
    !vertices.is_empty()
}
