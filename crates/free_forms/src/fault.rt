//! Why a face list is no open surface.
ghost use Rattle.std.specs.Prelude.{◌≡◌};

use std::alloc::AllocError;
use surf_model::VertexName;

/// The first condition of an open surface that fails, with the least element at which it does.
#[derive(Clone, Copy, Debug, PartialEq, Eq)]
pub enum OpenFault {
    /// The list has no face.
    NoFace,
    /// The least edge, by its lower and then by its higher vertex, that is in three or more sides, and its number of sides.
    EdgeSides {
        low: VertexName,
        high: VertexName,
        sides: u32,
    },
    /// Each edge is in two sides.
    NoBoundary,
    /// The least used vertex at which some two corners are not joined by steps across edges of two sides.
    Pinched {
        vertex: VertexName,
    },
    /// The least used vertex, and the least used vertex that no walk joins to it.
    Apart {
        vertex: VertexName,
        other: VertexName,
    },
    /// There is no memory for the check.
    OutOfMemory,
}

impl From<AllocError> for OpenFault {
    ghost use Rattle.free_forms.specs.declared.fault.OpenFault.TheVariants.{OutOfMemory};

    ghost from_gives = { λ _ fault. fault ≡ OutOfMemory };

    fn from(_: AllocError) -> Self {
        OpenFault::OutOfMemory
    }
}
