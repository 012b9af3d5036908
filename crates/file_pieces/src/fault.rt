//! Why a file is not read on.
use std::error::Error;
use std::fmt;

/// Why no further piece of a file was read.
#[derive(Clone, Copy, Debug, PartialEq, Eq)]
pub enum PieceFault {
    /// A read failed, and the shelf counted a fault.
    Failed,
    /// The file has more bytes than the limit allows.
    TooLarge,
}

impl fmt::Display for PieceFault {
    fn fmt<W: fmt::Write>(&self, f: &mut fmt::Formatter<W>) -> fmt::Result {
        match self {
            PieceFault::Failed => write!(f, "a read failed"),
            PieceFault::TooLarge => write!(f, "the file is too large"),
        }
    }
}

impl Error for PieceFault {}

/// Why the rest of a file was not gathered.
#[derive(Clone, Copy, Debug, PartialEq, Eq)]
pub enum GatherFault {
    /// No further piece was read.
    Piece(PieceFault),
    /// There was no memory for the bytes.
    OutOfMemory,
}

impl fmt::Display for GatherFault {
    fn fmt<W: fmt::Write>(&self, f: &mut fmt::Formatter<W>) -> fmt::Result {
        match self {
            GatherFault::Piece(fault) => write!(f, "{fault}"),
            GatherFault::OutOfMemory => write!(f, "out of memory"),
        }
    }
}

impl Error for GatherFault {}
