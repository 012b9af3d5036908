//! Files to read by name.
ghost use Rattle.std.specs.Prelude.{◌≡◌, ℕ, ◌≤◌, List, length, take, Option, IfOk, OnErr, IfSome};
ghost use Rattle.surf_io.specs.Faults.{Rose};
ghost use Rattle.surf_io.specs.Files.{Files, file_of, GivesFrom};

use crate::faults::Failed;

/// Files by name, which a caller only reads.
pub trait Shelf {
    // The files, where they are told.
    ghost held: { Self → Option Files };

    // The count of faults. It never falls, and a counter of 64 bits stands still at its last value.
    ghost faults: { Self → ℕ };

    /// Reads bytes of the file `name`, from the place `at` on, into the front of `into`, and says
    /// how many they are. There are none only where `into` has no room or the file ends at `at`.
    fn read(&mut self, name: &str, at: u64, into: &mut [u8]) -> Result<usize, Failed>
        ensures bound { IfOk result (λ n. n ≤ length into.new) }
        ensures file { IfOk result (λ n. IfSome (file_of (held self.old) name.now)
            (λ bytes. GivesFrom bytes at n into.new)) }
        ensures failed_only_on_fault { OnErr result (Rose (faults self.old) (faults self.new)) }
        ensures same_files { held self.new ≡ held self.old }
        ensures never_falls { faults self.old ≤ faults self.new };
}
