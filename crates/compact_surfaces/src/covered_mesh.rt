//! Closed manifolds without coherent signs, and their covers, which have some.
ghost use Rattle.std.specs.Prelude.{◌≡◌, IfOk, IfErr, OnOk};
ghost use Rattle.closed_surfaces.specs.SignedSurfaces.{surface_no_memory};
ghost use Rattle.doubling.specs.declared.fault.DoubleFault.{DoubleFault};
ghost use Rattle.compact_surfaces.specs.Answered.{IsCovered, IsUnsigned};
ghost use Rattle.compact_surfaces.specs.Faults.{IsCoverBeyond, IsFaultBehind};
ghost use Rattle.doubling.specs.DoubleFaults.{IsTooLarge};
ghost use Rattle.orientation_cover.specs.Turns.{cover_by};
ghost use Rattle.orientation_cover.specs.Ways.{AreWays};

use crate::fault::CompactFault;
use closed_surfaces::{NoSurface, SignedMesh};
use doubling::DoubleFault;
use orientation_cover::{WaysRound, cover, ways_round};
use std::alloc::Global;
use surf_model::{Faces, Sides};

/// A mesh and the table of its edges.
#[derive(Debug, Drop)]
pub struct TabledMesh {
    pub faces: Faces,
    pub sides: Sides,
}

/// A closed manifold without coherent signs, and its orientation cover by these ways round its vertices.
#[derive(Drop)]
pub struct CoveredMesh {
    pub mesh: TabledMesh,
    pub ways: WaysRound,
    pub cover: SignedMesh,
}

impl CoveredMesh {
    /// Makes the cover; or there is none, as it would be beyond this limit.
    pub(crate) fn of(alloc: Global, mesh: TabledMesh) -> Result<CoveredMesh, CompactFault>
        requires { IsUnsigned mesh }
        ensures mesh { IfOk result (λ covered. covered.mesh ≡ mesh) }
        ensures covered { IfOk result IsCovered }
        ensures fault { IfErr result (IsFaultBehind (λ limit. CompactFault.Cover limit) (IsCoverBeyond mesh.faces)) }
        ensures fits { OnOk result ((fault : DoubleFault) → IsCoverBeyond mesh.faces fault → ⊥) }
    {
        let ways = ways_round(alloc, &mesh.faces, &mesh.sides)?;
        let cover = cover_for(alloc, &mesh.faces, &ways)?;
        // The proof reads what holds of every face list.
        let _ = cover.len();
        match SignedMesh::of(alloc, cover) {
            Ok(cover) => Ok(CoveredMesh { mesh, ways, cover }),
            Err(refusal) => Err(wanting(refusal)),
        }
    }
}

/// The cover of a mesh by ways round its vertices, or the limit that it is beyond.
fn cover_for(alloc: Global, faces: &Faces, ways: &WaysRound) -> Result<Faces, CompactFault>
    requires { AreWays faces.now ways.now }
    ensures cover { IfOk result (λ cover. cover ≡ cover_by faces.now ways.now) }
    ensures fault { IfErr result (IsFaultBehind (λ limit. CompactFault.Cover limit) (IsTooLarge (cover_by faces.now ways.now))) }
{
    match cover(alloc, faces, ways) {
        Ok(cover) => Ok(cover),
        Err(DoubleFault::OutOfMemory) => Err(CompactFault::OutOfMemory),
        Err(limit) => Err(CompactFault::Cover(limit)),
    }
}

/// What is told of the cover, an orientable closed surface, where it is refused: that can be for want of memory alone.
fn wanting(_refusal: NoSurface) -> CompactFault
    requires { _refusal ≡ surface_no_memory }
    ensures { result ≡ CompactFault.OutOfMemory }
{
    CompactFault::OutOfMemory
}
