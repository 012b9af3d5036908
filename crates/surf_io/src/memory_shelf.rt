//! A shelf of files in memory, whose reads fail as it was planned.
ghost use Rattle.std.specs.Prelude.{◌≡◌, ℕ, ◌-◌, ◌≤◌, ◌⊎◌, List, [], ◌∷◌, ◌++◌, length, min, None, Some, IfOk, IfSome, OnOk, OnErr, IsErr, is_ok, if◌then◌else◌};
ghost use Rattle.std.specs.List.{Contains};
ghost use Rattle.std.specs.Option.{IsSomeAnd};
ghost use Rattle.std.specs.FinMap as map;
ghost use Rattle.surf_io.specs.Faults.{Rose};
ghost use Rattle.surf_io.specs.Files.{file_of, GivesFrom};
ghost use Rattle.surf_io.specs.Memory.{count_up};

use crate::fault_plan::FaultPlan;
use crate::faults::Failed;
use crate::shelf::Shelf;
use crate::stored_files::StoredFiles;
use std::alloc::{AllocError, Global};
use std::marker::Model;

/// Files in memory, and the numbers of the reads that fail. A name that is not there fails too.
#[derive(Drop)]
pub struct MemoryShelf {
    files: StoredFiles,
    plan: FaultPlan,
}

impl Model for MemoryShelf {
    ghost use Rattle.surf_io.specs.Memory.{ShelfInMemory, shelf_code};

    ghost Value = { ShelfInMemory };

    ghost coded = { shelf_code };

    ghost view = { λ s. record {
      files = s.files;
      failing = s.plan.failing.items;
      calls = s.plan.calls;
      faults = s.plan.faults;
    } };
}

impl MemoryShelf {
    /// A shelf with no file, and no read that fails.
    pub fn new(alloc: Global) -> Self
        ensures { result ≡ record { files = map.empty; failing = []; calls = 0; faults = 0 } }
    {
        Self {
            files: StoredFiles::new(alloc),
            plan: FaultPlan::new(alloc),
        }
    }

    /// Puts a file on the shelf, in place of one with that name.
    pub fn put(&mut self, name: &str, bytes: &[u8]) -> Result<(), AllocError>
        ensures ok { OnOk result (self.new ≡ record self.old { files = map.insert self.old.files name.now bytes.now }) }
        ensures err { OnErr result (self.new ≡ self.old) }
    {
        self.files.put(name, bytes)
    }

    /// Has the read with that number fail. The first read is number 1.
    pub fn fail_at(&mut self, call: u64) -> Result<(), AllocError>
        ensures ok { OnOk result (self.new ≡ record self.old { failing = self.old.failing ++ call ∷ [] }) }
        ensures err { OnErr result (self.new ≡ self.old) }
    {
        self.plan.fail_at(call)
    }
}

impl Shelf for MemoryShelf {
    ghost held = { λ s. Some s.files };

    ghost faults = { λ s. s.faults };

    fn read(&mut self, name: &str, at: u64, into: &mut [u8]) -> Result<usize, Failed>
        ensures fails_as_planned { Contains self.old.failing (count_up self.old.calls) → IsErr result }
        ensures fails_without_file { map.get self.old.files name.now ≡ None → IsErr result }
        ensures fails_only_so { IsErr result
            → Contains self.old.failing (count_up self.old.calls) ⊎ (map.get self.old.files name.now ≡ None) }
        ensures full { IfOk result (λ n. IsSomeAnd (map.get self.old.files name.now)
            (λ bytes. n ≡ min (length into.new) (length bytes - at))) }
        ensures calls { self.new.calls ≡ count_up self.old.calls }
        ensures faults { self.new.faults ≡ (if is_ok result then self.old.faults else count_up self.old.faults) }
        ensures same_plan { self.new.failing ≡ self.old.failing }

        ensures bound { IfOk result (λ n. n ≤ length into.new) }
        ensures file { IfOk result (λ n. IfSome (file_of (Some self.old.files) name.now)
            (λ bytes. GivesFrom bytes at n into.new)) }
        ensures failed_only_on_fault { OnErr result (Rose self.old.faults self.new.faults) }
        ensures same_files { self.new.files ≡ self.old.files }
        ensures never_falls { self.old.faults ≤ self.new.faults }
    {
        self.plan.begin_call()?;
        match self.files.read(name, at, into) {
            Some(count) => Ok(count),
            None => Err(self.plan.fault()),
        }
    }
}
