//! What stops a command before it has an answer.
use crate::text::Text;
use std::alloc::AllocError;

/// What stops a command before it has an answer.
#[derive(Debug, Drop)]
pub enum Stop {
    /// The input is refused, with this text.
    Refused(Text),
    /// A file could not be read.
    ReadFault,
    /// Memory was wanting.
    OutOfMemory,
}

impl From<AllocError> for Stop {
    ghost use Rattle.std.specs.Prelude.{◌≡◌};
    ghost use Rattle.commands.specs.declared.stop.Stop.TheVariants.{OutOfMemory};

    ghost from_gives = { λ _ e. e ≡ OutOfMemory };

    fn from(_: AllocError) -> Stop {
        Stop::OutOfMemory
    }
}
