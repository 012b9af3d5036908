//! A shelf of files in memory that never fails.
ghost use Rattle.std.specs.Prelude.{◌≡◌, ℕ, ◌-◌, ◌≤◌, length, min, None, Some, IfOk, IfSome, IsOk, OnOk, OnErr};
ghost use Rattle.std.specs.FinMap as map;
ghost use Rattle.surf_io.specs.Faults.{Rose};
ghost use Rattle.surf_io.specs.Files.{file_of, GivesFrom};

use crate::faults::Failed;
use crate::shelf::Shelf;
use crate::stored_files::StoredFiles;
use std::alloc::{AllocError, Global};
use std::marker::Model;

/// Files in memory. A name that is not there reads as an empty file.
#[derive(Drop)]
pub struct QuietShelf {
    files: StoredFiles,
}

impl Model for QuietShelf {
    ghost use Rattle.surf_io.specs.Files.{Files};
    ghost use Rattle.surf_io.specs.Memory.{files_code};

    ghost Value = { Files };

    ghost coded = { files_code };

    ghost view = { λ s. s.files };
}

impl QuietShelf {
    /// A shelf with no file.
    pub fn new(alloc: Global) -> Self
        ensures { result ≡ map.empty }
    {
        Self {
            files: StoredFiles::new(alloc),
        }
    }

    /// Puts a file on the shelf, in place of one with that name.
    pub fn put(&mut self, name: &str, bytes: &[u8]) -> Result<(), AllocError>
        ensures ok { OnOk result (self.new ≡ map.insert self.old name.now bytes.now) }
        ensures err { OnErr result (self.new ≡ self.old) }
    {
        self.files.put(name, bytes)
    }
}

impl Shelf for QuietShelf {
    ghost held = { λ s. Some s };

    ghost faults = { λ _. 0 };

    fn read(&mut self, name: &str, at: u64, into: &mut [u8]) -> Result<usize, Failed>
        ensures succeeds { IsOk result }
        ensures full { IfOk result (λ n. IfSome (map.get self.old name.now)
            (λ bytes. n ≡ min (length into.new) (length bytes - at))) }
        ensures empty_without_file { map.get self.old name.now ≡ None → result ≡ Ok 0 }

        ensures bound { IfOk result (λ n. n ≤ length into.new) }
        ensures file { IfOk result (λ n. IfSome (file_of (Some self.old) name.now)
            (λ bytes. GivesFrom bytes at n into.new)) }
        ensures same_files { self.new ≡ self.old }
    {
        Ok(self.files.read(name, at, into).unwrap_or(0))
    }
}
