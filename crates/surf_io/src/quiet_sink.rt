//! A sink that passes over what is written.
ghost use Rattle.std.specs.Prelude.{◌≡◌, length, None};

use crate::faults::Failed;
use crate::sink::Sink;

/// Passes over every byte, and never fails.
#[derive(Clone, Copy, Debug, Default)]
pub struct QuietSink;

impl QuietSink {
    /// A sink that passes over what is written.
    pub fn new() -> Self
        ensures { ⟦<QuietSink as Sink>⟧.faults result ≡ 0 }
    {
        Self
    }
}

impl Sink for QuietSink {
    ghost written = { λ _. None };

    ghost settled = { λ _. 0 };

    ghost faults = { λ _. 0 };

    fn write(&mut self, piece: &[u8]) -> Result<usize, Failed>
        ensures { result ≡ Ok (length piece.now) }
    {
        Ok(piece.len())
    }

    fn flush(&mut self) -> Result<(), Failed>
        ensures { result ≡ Ok tt }
    {
        Ok(())
    }
}
