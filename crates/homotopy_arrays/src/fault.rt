//! Why arrays have no answer.
ghost use Rattle.std.specs.Prelude.{◌≡◌};
ghost use Rattle.homotopy_arrays.specs.declared.fault.Fault.TheVariants.{OutOfMemory};

use closed_surfaces::NoSurface;
use compact_surfaces::{CompactFault, SignedFault};
use doubling::DoubleFault;
use manifold_check::SurfaceFault;
use std::alloc::AllocError;
use surf_model::{FaceName, VertexName};

/// Why a question about arrays has no answer: what is first wrong with them.
#[derive(Clone, Copy, Debug, PartialEq, Eq)]
pub enum Fault {
    /// There are more vertices than a mesh may have.
    ManyVertices,
    /// The sizes of the faces together are not the number of the corners.
    CornerCount,
    /// There are more corners than a mesh may have sides.
    ManySides,
    /// The face has fewer than three corners.
    FewCorners {
        face: FaceName,
    },
    /// The face names a vertex that there is not.
    NoVertex {
        face: FaceName,
    },
    /// Two neighbours round the face are one vertex.
    EqualNeighbours {
        face: FaceName,
    },
    /// The mesh has no face.
    NoFace,
    /// The least edge, by its lower and then by its higher vertex, that is not in exactly two sides, or where the surface may have
    /// boundary in three or more; and its number of sides.
    EdgeSides {
        low: VertexName,
        high: VertexName,
        sides: u32,
    },
    /// The least used vertex whose corners do not make one ring, or where the surface may have boundary neither one ring nor one fan.
    Pinched {
        vertex: VertexName,
    },
    /// The faces cannot be turned round so that the two sides of every edge run oppositely.
    NotOrientable,
    /// The mesh has boundary, and its double would have more vertices than a mesh may have.
    DoubleVertices,
    /// The same of its sides.
    DoubleSides,
    /// The cover of the mesh, or of its double, would have more vertices than a mesh may have.
    CoverVertices,
    /// The same of its sides.
    CoverSides,
    /// The sizes of the walks together are not the number of their vertices, or the walks are not two for each pair.
    WalkCount,
    /// There is no memory for the answer.
    OutOfMemory,
}

impl From<AllocError> for Fault {
    ghost from_gives = { λ _ fault. fault ≡ OutOfMemory };

    fn from(_: AllocError) -> Fault {
        Fault::OutOfMemory
    }
}

impl From<NoSurface> for Fault {
    ghost use Rattle.homotopy_arrays.specs.Surfaces.{of_no_surface};

    ghost from_gives = { λ none fault. fault ≡ of_no_surface none };

    fn from(none: NoSurface) -> Fault {
        match none {
            NoSurface::Fault(SurfaceFault::NoFace) => Fault::NoFace,
            NoSurface::Fault(SurfaceFault::EdgeSides { low, high, sides }) => {
                Fault::EdgeSides { low, high, sides }
            }
            NoSurface::Fault(SurfaceFault::Pinched { vertex }) => Fault::Pinched { vertex },
            NoSurface::Fault(SurfaceFault::OutOfMemory) => Fault::OutOfMemory,
            NoSurface::NotOrientable(_) => Fault::NotOrientable,
        }
    }
}

impl From<CompactFault> for Fault {
    ghost use Rattle.homotopy_arrays.specs.Compact.{of_compact_fault};

    ghost from_gives = { λ first fault. fault ≡ of_compact_fault first };

    fn from(fault: CompactFault) -> Fault {
        match fault {
            CompactFault::NoFace => Fault::NoFace,
            CompactFault::EdgeSides { low, high, sides } => Fault::EdgeSides { low, high, sides },
            CompactFault::Pinched { vertex } => Fault::Pinched { vertex },
            CompactFault::Double(DoubleFault::TooManyVertices) => Fault::DoubleVertices,
            CompactFault::Double(DoubleFault::TooManySides) => Fault::DoubleSides,
            CompactFault::Cover(DoubleFault::TooManyVertices) => Fault::CoverVertices,
            CompactFault::Cover(DoubleFault::TooManySides) => Fault::CoverSides,
            CompactFault::Double(DoubleFault::OutOfMemory) => Fault::OutOfMemory,
            CompactFault::Cover(DoubleFault::OutOfMemory) => Fault::OutOfMemory,
            CompactFault::OutOfMemory => Fault::OutOfMemory,
        }
    }
}

impl From<SignedFault> for Fault {
    ghost use Rattle.homotopy_arrays.specs.Compact.{of_signed_fault};

    ghost from_gives = { λ first fault. fault ≡ of_signed_fault first };

    fn from(fault: SignedFault) -> Fault {
        match fault {
            SignedFault::Compact(fault) => Fault::from(fault),
            SignedFault::NotOrientable => Fault::NotOrientable,
        }
    }
}
