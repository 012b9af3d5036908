//! Why a certificate is not read.
ghost use Rattle.std.specs.Prelude.{◌≡◌};

use std::alloc::AllocError;
use thiserror::Error;

/// Why a certificate of homology was not read. Lines are counted from 1, blank ones too.
#[derive(Clone, Copy, Debug, PartialEq, Eq, Error)]
pub enum HomologyFault {
    /// No line has words.
    #[error("there is no line")]
    NoHead,
    /// The line is not of the form that its place asks for, its order and the size of its number included.
    #[error("line {line}: not of the form that its place asks for")]
    Bad { line: u64 },
    /// The text ends before all lines came.
    #[error("line {line}: the text ends too early")]
    Ended { line: u64 },
    /// A line stands behind the last one.
    #[error("line {line}: nothing may stand here")]
    Extra { line: u64 },
    /// No memory was left for what was read.
    #[error("no memory was left for what was read")]
    OutOfMemory,
}

impl From<AllocError> for HomologyFault {
    ghost use Rattle.homology_files.specs.declared.fault.HomologyFault.TheVariants.{OutOfMemory};

    ghost from_gives = { λ _ e. e ≡ OutOfMemory };

    fn from(_: AllocError) -> HomologyFault {
        HomologyFault::OutOfMemory
    }
}
