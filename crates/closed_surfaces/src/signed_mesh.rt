//! A mesh as an orientable closed surface.
ghost use Rattle.std.specs.Prelude.{◌≡◌, IfOk, IfErr};
ghost use Rattle.orientation.specs.Classes.{IsLeastKept};
ghost use Rattle.closed_surfaces.specs.SignedSurfaces.{IsNoSurface, IsSigned};

use manifold_check::{SurfaceFault, check_closed};
use orientation::{OrientFault, orient};
use std::alloc::{AllocError, Global};
use surf_model::{Faces, OddChain, Sides, Signs};

/// An orientable closed surface, in one piece or in several: a mesh, the table of its edges, and signs of its faces under which
/// the two sides of every edge run oppositely.
#[derive(Debug, Drop)]
pub struct SignedMesh {
    pub faces: Faces,
    pub sides: Sides,
    pub signs: Signs,
}

/// Why a mesh is no orientable closed surface.
#[derive(Debug, Drop)]
pub enum NoSurface {
    /// It is no closed manifold: the first condition that fails, or want of memory.
    Fault(SurfaceFault),
    /// It is a closed manifold whose faces cannot be signed, as this odd chain shows.
    NotOrientable(OddChain),
}

impl From<AllocError> for NoSurface {
    ghost use Rattle.std.specs.Prelude.{◌≡◌};
    ghost use Rattle.closed_surfaces.specs.SignedSurfaces.{surface_no_memory};

    ghost from_gives = { λ _ none. none ≡ surface_no_memory };

    fn from(_: AllocError) -> NoSurface {
        NoSurface::Fault(SurfaceFault::OutOfMemory)
    }
}

impl SignedMesh {
    /// The surface that a mesh is, with the signs that keep the least face of each component.
    pub fn of(alloc: Global, faces: Faces) -> Result<SignedMesh, NoSurface>
        ensures mesh { IfOk result (λ surface. surface.faces ≡ faces) }
        ensures signed { IfOk result IsSigned }
        ensures least_kept { IfOk result (λ surface. IsLeastKept surface.faces surface.signs) }
        ensures none { IfErr result (IsNoSurface faces) }
    {
        let sides = Sides::build(alloc, &faces)?;
        if let Err(fault) = check_closed(alloc, &faces, &sides) {
            return Err(NoSurface::Fault(fault));
        }
        match orient(alloc, &faces, &sides) {
            Ok(signs) => Ok(SignedMesh {
                faces,
                sides,
                signs,
            }),
            Err(OrientFault::NotOrientable { chain }) => Err(NoSurface::NotOrientable(chain)),
            Err(OrientFault::OutOfMemory) => Err(NoSurface::Fault(SurfaceFault::OutOfMemory)),
        }
    }
}
