//! The orientable closed surface that answers for a compact surface: the mesh itself, its double, or the cover of either.
ghost use Rattle.std.specs.Prelude.{◌≡◌, ◌⊎◌, IfErr, IfOk, OnOk};
ghost use Rattle.surf_model.specs.Edges.{IsTableOf};
ghost use Rattle.surf_model.specs.FaceLists.{HasFileSize};
ghost use Rattle.surf_model.specs.Surfaces.{IsClosedManifold};
ghost use Rattle.doubling.specs.DoubleFaults.{IsBeyond};
ghost use Rattle.doubling.specs.Doubles.{double_of};
ghost use Rattle.doubling.specs.declared.fault.DoubleFault.{DoubleFault};
ghost use Rattle.compact_surfaces.specs.Answered.{IsAnsweredManifold, IsAnsweredBy, IsClosedMesh, IsOwnFor, mesh_of_answered, mesh_of_closed};
ghost use Rattle.compact_surfaces.specs.CompactSurfaces.{IsCompactSurface};
ghost use Rattle.compact_surfaces.specs.Faults.{IsCoverBeyond, IsFirstCompactFault, IsFaultBehind, IsUncoveredFault};
ghost use Rattle.compact_surfaces.specs.declared.fault.CompactFault.{CompactFault};

use crate::check::has_boundary;
use crate::covered_mesh::{CoveredMesh, TabledMesh};
use crate::fault::CompactFault;
use closed_surfaces::SignedMesh;
use doubling::{DoubleFault, double};
use orientation::{OrientFault, orient};
use std::alloc::{AllocError, Global};
use surf_model::{Faces, Sides};

/// A compact surface, with the orientable closed surface that answers questions about its walks.
#[derive(Drop)]
pub struct AnsweredSurface {
    /// The mesh, where it has boundary: the closed manifold is its double then, and else the mesh itself.
    pub own: Option<TabledMesh>,
    /// The closed manifold, with what answers for it.
    pub closed: AnsweredManifold,
}

/// A closed manifold, with the orientable closed surface that answers for it.
#[derive(Drop)]
pub enum AnsweredManifold {
    /// One with coherent signs, which answers for itself.
    Itself(SignedMesh),
    /// One without, with its cover.
    Covered(CoveredMesh),
}

/// A closed manifold, with coherent signs where it has some.
#[derive(Drop)]
pub(crate) enum ClosedMesh {
    Signed(SignedMesh),
    Twisted(TabledMesh),
}

impl AnsweredSurface {
    /// The compact surface that a mesh is, with what answers for it; or the first condition that fails.
    pub fn of(alloc: Global, faces: Faces) -> Result<AnsweredSurface, CompactFault>
        ensures compact { OnOk result (IsCompactSurface faces) }
        ensures answered { IfOk result (IsAnsweredBy faces) }
        ensures fault { IfErr result (λ fault. (fault ≡ CompactFault.OutOfMemory) ⊎ IsFirstCompactFault faces fault) }
        ensures none { OnOk result ((fault : CompactFault) → IsFirstCompactFault faces fault → ⊥) }
    {
        let (own, closed) = closed_for(alloc, faces)?;
        let closed = answered(alloc, closed)?;
        Ok(AnsweredSurface { own, closed })
    }
}

/// What answers for a closed manifold, or the limit that its cover is beyond.
fn answered(alloc: Global, closed: ClosedMesh) -> Result<AnsweredManifold, CompactFault>
    requires { IsClosedMesh closed }
    ensures mesh { IfOk result (λ kept. mesh_of_answered kept ≡ mesh_of_closed closed) }
    ensures answered { IfOk result IsAnsweredManifold }
    ensures fault { IfErr result (IsFaultBehind (λ limit. CompactFault.Cover limit) (IsCoverBeyond (mesh_of_closed closed))) }
    ensures fits { OnOk result ((fault : DoubleFault) → IsCoverBeyond (mesh_of_closed closed) fault → ⊥) }
{
    match closed {
        ClosedMesh::Signed(mesh) => Ok(AnsweredManifold::Itself(mesh)),
        ClosedMesh::Twisted(mesh) => {
            let covered = CoveredMesh::of(alloc, mesh)?;
            Ok(AnsweredManifold::Covered(covered))
        }
    }
}

/// The closed manifold that a compact surface is, or its double, and then the surface too; or what fails before a cover is made.
pub(crate) fn closed_for(
    alloc: Global,
    faces: Faces,
) -> Result<(Option<TabledMesh>, ClosedMesh), CompactFault>
    ensures compact { OnOk result (IsCompactSurface faces) }
    ensures own { IfOk result (λ made. IsOwnFor faces (mesh_of_closed made.1) made.0) }
    ensures closed { IfOk result (λ made. IsClosedMesh made.1) }
    ensures fits { IfOk result (λ made. HasFileSize (mesh_of_closed made.1)) }
    ensures fault { IfErr result (λ fault. (fault ≡ CompactFault.OutOfMemory) ⊎ IsUncoveredFault faces fault) }
{
    // The proof reads what holds of every face list.
    let _ = faces.len();
    let sides = Sides::build(alloc, &faces)?;
    if !has_boundary(alloc, &faces, &sides)? {
        let closed = signed_if_coherent(alloc, faces, sides)?;
        return Ok((None, closed));
    }
    let double = double_for(alloc, &faces, &sides)?;
    let _ = double.len();
    let table = Sides::build(alloc, &double)?;
    let closed = signed_if_coherent(alloc, double, table)?;
    Ok((Some(TabledMesh { faces, sides }), closed))
}

/// The double of a mesh, or the limit that it is beyond.
fn double_for(alloc: Global, faces: &Faces, sides: &Sides) -> Result<Faces, CompactFault>
    requires { IsTableOf faces.now sides.now }
    ensures double { IfOk result (λ double. double ≡ double_of faces.now) }
    ensures fault { IfErr result (IsFaultBehind (λ limit. CompactFault.Double limit) (IsBeyond faces.now)) }
{
    match double(alloc, faces, sides) {
        Ok(double) => Ok(double),
        Err(DoubleFault::OutOfMemory) => Err(CompactFault::OutOfMemory),
        Err(limit) => Err(CompactFault::Double(limit)),
    }
}

/// A closed manifold, with coherent signs where it has some.
fn signed_if_coherent(alloc: Global, faces: Faces, sides: Sides) -> Result<ClosedMesh, AllocError>
    requires table { IsTableOf faces sides }
    requires manifold { IsClosedManifold faces }
    ensures mesh { IfOk result (λ closed. mesh_of_closed closed ≡ faces) }
    ensures closed { IfOk result IsClosedMesh }
    ensures fits { IfOk result (λ closed. HasFileSize (mesh_of_closed closed)) }
{
    // The proof reads what holds of every face list.
    let _ = faces.len();
    match orient(alloc, &faces, &sides) {
        Ok(signs) => Ok(ClosedMesh::Signed(SignedMesh {
            faces,
            sides,
            signs,
        })),
        Err(OrientFault::NotOrientable { .. }) => {
            Ok(ClosedMesh::Twisted(TabledMesh { faces, sides }))
        }
        Err(OrientFault::OutOfMemory) => Err(AllocError),
    }
}
