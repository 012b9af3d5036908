//! Why walks have no classes.

use std::alloc::AllocError;

/// Why lists of vertices have no classes on a surface.
#[derive(Clone, Copy, Debug, PartialEq, Eq)]
pub enum ClassFault {
    /// The first list that is no walk of the surface, by its place.
    NoWalk { place: usize },
    /// There is no memory for the classes.
    OutOfMemory,
}

impl From<AllocError> for ClassFault {
    ghost use Rattle.std.specs.Prelude.{◌≡◌};
    ghost use Rattle.walk_classes.specs.declared.fault.ClassFault.TheVariants.{OutOfMemory};

    ghost from_gives = { λ _ fault. fault ≡ OutOfMemory };

    fn from(_: AllocError) -> ClassFault {
        ClassFault::OutOfMemory
    }
}
