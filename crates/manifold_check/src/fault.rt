//! Why a face list is no closed manifold.
ghost use Rattle.std.specs.Prelude.{◌≡◌};

use std::alloc::AllocError;
use surf_model::VertexName;

/// The first condition of a closed manifold that fails, with the least element at which it does.
#[derive(Clone, Copy, Debug, PartialEq, Eq)]
pub enum SurfaceFault {
    /// The list has no face.
    NoFace,
    /// The least edge, by its lower and then by its higher vertex, that is not in exactly two sides, and its number of sides.
    EdgeSides {
        low: VertexName,
        high: VertexName,
        sides: u32,
    },
    /// The least used vertex whose corners do not make one ring.
    Pinched {
        vertex: VertexName,
    },
    /// There is no memory for the check.
    OutOfMemory,
}

impl From<AllocError> for SurfaceFault {
    ghost use Rattle.manifold_check.specs.declared.fault.SurfaceFault.TheVariants.{OutOfMemory};

    ghost from_gives = { λ _ fault. fault ≡ OutOfMemory };

    fn from(_: AllocError) -> Self {
        SurfaceFault::OutOfMemory
    }
}
