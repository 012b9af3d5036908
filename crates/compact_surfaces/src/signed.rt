//! Orientable compact surfaces with coherent signs, and their doubles where they have boundary.
ghost use Rattle.std.specs.Prelude.{◌≡◌, ◌⊎◌, IfErr, IfOk, OnOk};
ghost use Rattle.compact_surfaces.specs.CompactSurfaces.{IsOrientableCompactSurface};
ghost use Rattle.compact_surfaces.specs.Signed.{IsSignedFault, IsSignedFor, signed_no_memory};

use crate::answered::{ClosedMesh, closed_for};
use crate::fault::CompactFault;
use closed_surfaces::SignedMesh;
use std::alloc::{AllocError, Global};
use surf_model::{Faces, Sides};

/// An orientable compact surface, in any number of pieces.
#[derive(Debug, Drop)]
pub enum SignedCompact {
    /// One without boundary.
    Closed(SignedMesh),
    /// One with boundary.
    Bounded(Bounded),
}

/// An orientable surface with boundary, the table of its edges, and its double.
#[derive(Debug, Drop)]
pub struct Bounded {
    pub faces: Faces,
    pub sides: Sides,
    pub double: SignedMesh,
}

/// Why a mesh is no orientable compact surface.
#[derive(Clone, Copy, Debug, PartialEq, Eq)]
pub enum SignedFault {
    /// It is no compact surface, or its double would be too large. It is never that a cover would be, since none is made.
    Compact(CompactFault),
    /// It is one, and its faces have no coherent signs.
    NotOrientable,
}

impl From<CompactFault> for SignedFault {
    ghost use Rattle.compact_surfaces.specs.declared.signed.SignedFault.TheVariants.{Compact};

    ghost from_gives = { λ first fault. fault ≡ Compact first };

    fn from(fault: CompactFault) -> Self {
        SignedFault::Compact(fault)
    }
}

impl From<AllocError> for SignedFault {
    ghost use Rattle.compact_surfaces.specs.Signed.{signed_no_memory};

    ghost from_gives = { λ _ fault. fault ≡ signed_no_memory };

    fn from(_: AllocError) -> Self {
        SignedFault::Compact(CompactFault::OutOfMemory)
    }
}

impl SignedCompact {
    /// The orientable compact surface that a mesh is, with its double where it has boundary; or what is first wrong.
    pub fn of(alloc: Global, faces: Faces) -> Result<SignedCompact, SignedFault>
        ensures surface { OnOk result (IsOrientableCompactSurface faces) }
        ensures signed { IfOk result (IsSignedFor faces) }
        ensures fault { IfErr result (λ fault. (fault ≡ signed_no_memory) ⊎ IsSignedFault faces fault) }
    {
        let (own, closed) = closed_for(alloc, faces)?;
        match (closed, own) {
            (ClosedMesh::Twisted(_), _) => Err(SignedFault::NotOrientable),
            (ClosedMesh::Signed(closed), None) => Ok(SignedCompact::Closed(closed)),
            (ClosedMesh::Signed(double), Some(own)) => Ok(SignedCompact::Bounded(Bounded {
                faces: own.faces,
                sides: own.sides,
                double,
            })),
        }
    }
}
