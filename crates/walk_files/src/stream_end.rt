//! Why a certificate is not read from a shelf.
ghost use Rattle.std.specs.Prelude.{◌≡◌};

use crate::fault::CertFault;
use file_pieces::{GatherFault, PieceFault};
use std::alloc::AllocError;
use thiserror::Error;

/// Why a certificate was not read from a shelf.
#[derive(Clone, Copy, Debug, PartialEq, Eq, Error)]
pub enum StreamEnd {
    /// A read failed, and the shelf counted a fault.
    #[error("a read failed")]
    Fault,
    /// The file has more bytes than the limit allows.
    #[error("the file is too large")]
    TooLarge,
    /// The file was read to its end, and is no certificate. This is never want of memory.
    #[error("{0}")]
    Cert(CertFault),
    /// No memory was left for what was read.
    #[error("no memory was left for what was read")]
    OutOfMemory,
}

impl From<AllocError> for StreamEnd {
    ghost use Rattle.walk_files.specs.declared.stream_end.StreamEnd.TheVariants.{OutOfMemory};

    ghost from_gives = { λ _ e. e ≡ OutOfMemory };

    fn from(_: AllocError) -> StreamEnd {
        StreamEnd::OutOfMemory
    }
}

impl From<PieceFault> for StreamEnd {
    ghost use Rattle.walk_files.specs.StreamEnds.{end_of_piece};

    ghost from_gives = { λ fault e. e ≡ end_of_piece fault };

    fn from(fault: PieceFault) -> StreamEnd {
        match fault {
            PieceFault::Failed => StreamEnd::Fault,
            PieceFault::TooLarge => StreamEnd::TooLarge,
        }
    }
}

impl From<CertFault> for StreamEnd {
    ghost use Rattle.walk_files.specs.StreamEnds.{end_of_text};

    ghost from_gives = { λ fault e. e ≡ end_of_text fault };

    fn from(fault: CertFault) -> StreamEnd {
        match fault {
            CertFault::OutOfMemory => StreamEnd::OutOfMemory,
            _ => StreamEnd::Cert(fault),
        }
    }
}

impl From<GatherFault> for StreamEnd {
    ghost use Rattle.walk_files.specs.StreamEnds.{end_of_gathering};

    ghost from_gives = { λ fault e. e ≡ end_of_gathering fault };

    fn from(fault: GatherFault) -> StreamEnd {
        match fault {
            GatherFault::Piece(PieceFault::Failed) => StreamEnd::Fault,
            GatherFault::Piece(PieceFault::TooLarge) => StreamEnd::TooLarge,
            GatherFault::OutOfMemory => StreamEnd::OutOfMemory,
        }
    }
}
