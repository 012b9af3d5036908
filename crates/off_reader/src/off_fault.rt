//! Why a text is no mesh.
ghost use Rattle.std.specs.Prelude.{◌≡◌};
ghost use Rattle.off_reader.specs.declared.off_fault.OffFault.TheVariants.{OutOfMemory};

use std::alloc::AllocError;
use thiserror::Error;

/// Why a text is no mesh: its first fault, with the line where it lies. Lines are counted from 1.
#[derive(Clone, Copy, Debug, PartialEq, Eq, Error)]
pub enum OffFault {
    /// There is no line where the counts could be.
    #[error("there are no counts")]
    NoCounts,
    /// The numbers of vertices and faces are not two naturals.
    #[error("line {line}: faulty counts")]
    BadCounts { line: u64 },
    /// The keyword names a form that is not read.
    #[error("line {line}: a form that is not read")]
    UnreadForm { line: u64 },
    /// A vertex has too few coordinates, or one that is no number.
    #[error("line {line}: faulty vertex")]
    BadVertex { line: u64 },
    /// The text ends before all vertices and faces came.
    #[error("line {line}: the text ends")]
    Ended { line: u64 },
    /// A face has fewer than three corners, or fewer naturals than its first number says.
    #[error("line {line}: faulty face")]
    BadFace { line: u64 },
    /// A face names a vertex that there is not.
    #[error("line {line}: no such vertex")]
    IndexRange { line: u64 },
    /// Two neighbours round a face are one vertex.
    #[error("line {line}: equal neighbours")]
    EqualNeighbours { line: u64 },
    /// There are too many vertices, faces or sides.
    #[error("line {line}: too many")]
    TooMany { line: u64 },
    /// No memory was left for the mesh.
    #[error("out of memory")]
    OutOfMemory,
}

impl From<AllocError> for OffFault {
    ghost from_gives = { λ _ e. e ≡ OutOfMemory };

    fn from(_e: AllocError) -> OffFault {
        OffFault::OutOfMemory
    }
}
