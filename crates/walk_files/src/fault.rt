//! Why a text is not read.
ghost use Rattle.std.specs.Prelude.{◌≡◌};

use std::alloc::AllocError;
use thiserror::Error;

/// Why walks or turn words were not read. Lines are counted from 1, blank ones too.
#[derive(Clone, Copy, Debug, PartialEq, Eq, Error)]
pub enum WalkFault {
    /// A word of the line is no natural of at most 4,294,967,295, nor a parenthesis where groups may stand.
    #[error("line {line}: a word is no natural of at most 4294967295")]
    BadNumber { line: u64 },
    /// The line has too many words, or stands for too many darts, with those of the lines before or without them.
    #[error("line {line}: too long")]
    TooLong { line: u64 },
    /// The text has too many lines with words, and this is the first too many.
    #[error("line {line}: too many lines")]
    TooMany { line: u64 },
    /// The signs of the line do not form a walk with groups.
    #[error("line {line}: no walk with groups")]
    BadGroup { line: u64 },
    /// No memory was left for what was read.
    #[error("no memory was left for what was read")]
    OutOfMemory,
}

/// Why a certificate was not read. Lines are counted from 1, blank ones too.
#[derive(Clone, Copy, Debug, PartialEq, Eq, Error)]
pub enum CertFault {
    /// No line has words.
    #[error("there is no line")]
    NoHead,
    /// The line is not of the form that its place asks for.
    #[error("line {line}: not of the form that its place asks for")]
    Bad { line: u64 },
    /// The text ends before all lines came.
    #[error("line {line}: the text ends too early")]
    Ended { line: u64 },
    /// A line stands behind the last one.
    #[error("line {line}: nothing may stand here")]
    Extra { line: u64 },
    /// The peak in the head is too large.
    #[error("line {line}: the peak is too large")]
    Peak { line: u64 },
    /// No memory was left for what was read.
    #[error("no memory was left for what was read")]
    OutOfMemory,
}

impl From<AllocError> for WalkFault {
    ghost use Rattle.walk_files.specs.declared.fault.WalkFault.TheVariants.{OutOfMemory};

    ghost from_gives = { λ _ e. e ≡ OutOfMemory };

    fn from(_: AllocError) -> WalkFault {
        WalkFault::OutOfMemory
    }
}

impl From<AllocError> for CertFault {
    ghost use Rattle.walk_files.specs.declared.fault.CertFault.TheVariants.{OutOfMemory};

    ghost from_gives = { λ _ e. e ≡ OutOfMemory };

    fn from(_: AllocError) -> CertFault {
        CertFault::OutOfMemory
    }
}
