//! Why the faces of a mesh could not be given signs.
ghost use Rattle.std.specs.Prelude.{◌≡◌};
ghost use Rattle.orientation.specs.declared.fault.OrientFault.TheVariants.{OutOfMemory};

use std::alloc::AllocError;
use surf_model::OddChain;

/// Why the faces of a mesh could not be given coherent signs.
#[derive(Debug, Drop)]
pub enum OrientFault {
    /// There are none: the mesh has this odd chain.
    NotOrientable { chain: OddChain },
    /// No memory was left for the search.
    OutOfMemory,
}

impl From<AllocError> for OrientFault {
    ghost from_gives = { λ _ e. e ≡ OutOfMemory };

    fn from(_e: AllocError) -> OrientFault {
        OrientFault::OutOfMemory
    }
}
