//! Why a mesh has no double here, or no double cover.
ghost use Rattle.std.specs.Prelude.{◌≡◌};

use std::alloc::AllocError;

/// The first limit of a mesh that its double, or a double cover of it, is beyond.
#[derive(Clone, Copy, Debug, PartialEq, Eq)]
pub enum DoubleFault {
    /// It has more vertices than a mesh may have.
    TooManyVertices,
    /// It has more sides than a mesh may have.
    TooManySides,
    /// There is no memory for it.
    OutOfMemory,
}

impl From<AllocError> for DoubleFault {
    ghost use Rattle.doubling.specs.declared.fault.DoubleFault.TheVariants.{OutOfMemory};

    ghost from_gives = { λ _ fault. fault ≡ OutOfMemory };

    fn from(_: AllocError) -> Self {
        DoubleFault::OutOfMemory
    }
}
