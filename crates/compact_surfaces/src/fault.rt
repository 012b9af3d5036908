//! Why a mesh is no compact surface.
ghost use Rattle.std.specs.Prelude.{◌≡◌};

use doubling::DoubleFault;
use std::alloc::AllocError;
use surf_model::VertexName;

/// The first condition of a compact surface that fails, with its least element.
#[derive(Clone, Copy, Debug, PartialEq, Eq)]
pub enum CompactFault {
    /// The mesh has no face.
    NoFace,
    /// The least edge, by its lower and then by its higher vertex, that is in three or more sides, and its number of sides.
    EdgeSides {
        low: VertexName,
        high: VertexName,
        sides: u32,
    },
    /// The least used vertex whose corners make neither one ring nor one fan.
    Pinched {
        vertex: VertexName,
    },
    /// Some edge has one side, and the double is beyond this limit of a mesh.
    Double(DoubleFault),
    /// There are no coherent signs, and the cover of the mesh, or of its double, is beyond this limit.
    Cover(DoubleFault),
    /// There is no memory for the surface.
    OutOfMemory,
}

impl From<AllocError> for CompactFault {
    ghost use Rattle.compact_surfaces.specs.declared.fault.CompactFault.TheVariants.{OutOfMemory};

    ghost from_gives = { λ _ fault. fault ≡ OutOfMemory };

    fn from(_: AllocError) -> Self {
        CompactFault::OutOfMemory
    }
}
