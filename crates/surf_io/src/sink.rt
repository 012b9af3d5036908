//! A place that bytes are written to.
ghost use Rattle.std.specs.Prelude.{◌≡◌, ℕ, ◌<◌, ◌≤◌, List, length, take, Option, IfOk, OnOk, OnErr, IfSome};
ghost use Rattle.surf_io.specs.Faults.{Rose};
ghost use Rattle.surf_io.specs.Bytes.{Appends};

use crate::faults::Failed;

/// A place that bytes are written to, and that a flush settles.
pub trait Sink {
    // The bytes that were written, where they are told.
    ghost written: { Self → Option (List ℕ) };

    // How many of the told bytes a flush has settled.
    ghost settled: { Self → ℕ };

    // The count of faults. It never falls, and a counter of 64 bits stands still at its last value.
    ghost faults: { Self → ℕ };

    /// Writes the front of `piece`, at least one byte where there is one, and says how many bytes.
    fn write(&mut self, piece: &[u8]) -> Result<usize, Failed>
        ensures bound { IfOk result (λ n. n ≤ length piece.now) }
        ensures progress { IfOk result (λ n. 0 < length piece.now → 0 < n) }
        ensures appends { IfOk result (λ n. Appends (written self.old) (written self.new) (take n piece.now)) }
        ensures empty_piece { length piece.now ≡ 0 → (result ≡ Ok 0) × (self.new ≡ self.old) }
        ensures same_settled { settled self.new ≡ settled self.old }

        ensures failed_only_on_fault { OnErr result (Rose (faults self.old) (faults self.new)) }
        ensures failed_writes_nothing { OnErr result (written self.new ≡ written self.old) }
        ensures never_falls { faults self.old ≤ faults self.new };

    /// Settles what was written.
    fn flush(&mut self) -> Result<(), Failed>
        ensures settles { OnOk result (IfSome (written self.new) (λ bytes. settled self.new ≡ length bytes)) }
        ensures same_bytes { written self.new ≡ written self.old }

        ensures failed_only_on_fault { OnErr result (Rose (faults self.old) (faults self.new)) }
        ensures failed_settles_nothing { OnErr result (settled self.new ≡ settled self.old) }
        ensures never_falls { faults self.old ≤ faults self.new };
}
