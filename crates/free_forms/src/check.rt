//! The conditions of an open surface, in their order.
ghost use Rattle.std.specs.Prelude.{◌≡◌, ◌≢◌, ◌⊎◌, ◌≤◌, ℕ, ◌<◌, length, Err, OnOk, IfErr, IfSome, IfNone};
ghost use Rattle.surf_model.specs.Edges.{IsTableOf, edge_in};
ghost use Rattle.free_forms.specs.OpenSurfaces.{IsOpenSurface};
ghost use Rattle.free_forms.specs.OpenFaults.{IsFirstOpenFault, IsFirstCrowded, IsBoundaryEdge};

use crate::fault::OpenFault;
use connectivity::{pinched_vertex, vertices_apart};
use std::alloc::Global;
use surf_model::{EdgeName, Faces, Sides};

/// Checks that a face list is an open surface: there is a face, no edge is in three or more sides, some edge is in one side, at
/// each used vertex any two corners are joined by steps across edges of two sides, and any two used vertices are joined by a
/// walk. The error names the first of these that fails, with its least element. The time is that of going over the sides a few
/// times.
pub fn check_open(alloc: Global, faces: &Faces, sides: &Sides) -> Result<(), OpenFault>
    requires { IsTableOf faces.now sides.now }
    ensures surface { OnOk result (IsOpenSurface faces.now) }
    ensures fault { IfErr result (λ fault. (fault ≡ OpenFault.OutOfMemory) ⊎ IsFirstOpenFault faces.now fault) }
    // An open surface is refused, and another fault than the first is named, for want of memory alone.
    ensures accepted { IsOpenSurface faces.now → IfErr result (λ fault. fault ≡ OpenFault.OutOfMemory) }
    ensures refused { (fault : OpenFault) → IsFirstOpenFault faces.now fault
        → (result ≡ Err fault) ⊎ (result ≡ Err OpenFault.OutOfMemory) }
{
    meet_conditions(alloc, faces, sides)
}

/// Goes over the conditions in their order.
fn meet_conditions(alloc: Global, faces: &Faces, sides: &Sides) -> Result<(), OpenFault>
    requires { IsTableOf faces.now sides.now }
    ensures surface { OnOk result (IsOpenSurface faces.now) }
    ensures fault { IfErr result (λ fault. (fault ≡ OpenFault.OutOfMemory) ⊎ IsFirstOpenFault faces.now fault) }
{
    if faces.len() == 0 {
        return Err(OpenFault::NoFace);
    }
    if let Some(edge) = first_crowded(sides) {
        let (low, high) = sides.ends(edge);
        return Err(OpenFault::EdgeSides {
            low,
            high,
            sides: sides.sides_of(edge),
        });
    }
    let Some(_rim) = boundary_edge(sides) else {
        return Err(OpenFault::NoBoundary);
    };
    if let Some(vertex) = pinched_vertex(alloc, faces, sides)? {
        return Err(OpenFault::Pinched { vertex });
    }
    if let Some((vertex, other)) = vertices_apart(alloc, faces, sides)? {
        return Err(OpenFault::Apart { vertex, other });
    }
    Ok(())
}

/// The first edge that has three or more sides.
fn first_crowded(sides: &Sides) -> Option<EdgeName>
    ensures some { IfSome result (λ edge. IsFirstCrowded sides.now edge.0) }
    ensures none { IfNone result ((k : ℕ) → k < length sides.now → length (edge_in sides.now k).sides ≤ 2) }
{
    for edge in 0..sides.len() {
        if sides.sides_of(EdgeName(edge)) > 2 {
            return Some(EdgeName(edge));
        }
    }
    None
}

/// The first edge that has one side.
fn boundary_edge(sides: &Sides) -> Option<EdgeName>
    ensures some { IfSome result (λ edge. IsBoundaryEdge sides.now edge.0) }
    ensures none { IfNone result ((k : ℕ) → k < length sides.now → length (edge_in sides.now k).sides ≢ 1) }
{
    for edge in 0..sides.len() {
        if sides.sides_of(EdgeName(edge)) == 1 {
            return Some(EdgeName(edge));
        }
    }
    None
}
