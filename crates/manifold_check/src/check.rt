//! The conditions of a closed manifold, in their order.
ghost use Rattle.std.specs.Prelude.{◌≡◌, ◌⊎◌, ℕ, ◌<◌, length, Err, OnOk, IfErr, IfSome, IfNone};
ghost use Rattle.surf_model.specs.Edges.{IsTableOf, edge_in};
ghost use Rattle.surf_model.specs.Surfaces.{IsClosedManifold};
ghost use Rattle.manifold_check.specs.Faults.{IsFirstFault};
ghost use Rattle.manifold_check.specs.UnevenEdges.{IsFirstUneven};

use crate::fault::SurfaceFault;
use connectivity::pinched_vertex;
use std::alloc::Global;
use surf_model::{EdgeName, Faces, Sides};

/// Checks that a face list is a closed manifold, in one piece or in several: there is a face, each edge has exactly two sides,
/// and the corners at each used vertex make one ring. The error names the first of these that fails, with its least element.
/// The time is that of going over the sides a few times.
pub fn check_closed(alloc: Global, faces: &Faces, sides: &Sides) -> Result<(), SurfaceFault>
    requires { IsTableOf faces.now sides.now }
    ensures closed { OnOk result (IsClosedManifold faces.now) }
    ensures fault { IfErr result (λ fault. (fault ≡ SurfaceFault.OutOfMemory) ⊎ IsFirstFault faces.now fault) }
    // A closed manifold is refused, and another fault than the first is named, for want of memory alone.
    ensures accepted { IsClosedManifold faces.now → IfErr result (λ fault. fault ≡ SurfaceFault.OutOfMemory) }
    ensures refused { (fault : SurfaceFault) → IsFirstFault faces.now fault
        → (result ≡ Err fault) ⊎ (result ≡ Err SurfaceFault.OutOfMemory) }
{
    meet_conditions(alloc, faces, sides)
}

/// Goes over the conditions in their order.
fn meet_conditions(alloc: Global, faces: &Faces, sides: &Sides) -> Result<(), SurfaceFault>
    requires { IsTableOf faces.now sides.now }
    ensures closed { OnOk result (IsClosedManifold faces.now) }
    ensures fault { IfErr result (λ fault. (fault ≡ SurfaceFault.OutOfMemory) ⊎ IsFirstFault faces.now fault) }
{
    if faces.len() == 0 {
        return Err(SurfaceFault::NoFace);
    }
    if let Some(edge) = first_uneven(sides) {
        let (low, high) = sides.ends(edge);
        return Err(SurfaceFault::EdgeSides {
            low,
            high,
            sides: sides.sides_of(edge),
        });
    }
    if let Some(vertex) = pinched_vertex(alloc, faces, sides)? {
        return Err(SurfaceFault::Pinched { vertex });
    }
    Ok(())
}

/// The first edge that has not exactly two sides.
fn first_uneven(sides: &Sides) -> Option<EdgeName>
    ensures some { IfSome result (λ edge. IsFirstUneven sides.now edge.0) }
    ensures none { IfNone result ((k : ℕ) → k < length sides.now → length (edge_in sides.now k).sides ≡ 2) }
{
    for edge in 0..sides.len() {
        if sides.sides_of(EdgeName(edge)) != 2 {
            return Some(EdgeName(edge));
        }
    }
    None
}
