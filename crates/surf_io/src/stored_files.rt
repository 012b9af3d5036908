//! Files that are kept in memory.
ghost use Rattle.std.specs.Prelude.{◌≡◌, ℕ, ◌-◌, ◌≤◌, List, length, take, drop, min, Option, None, MatchOption, OnOk, OnErr};
ghost use Rattle.std.specs.Option.{IsSomeAnd};
ghost use Rattle.std.specs.FinMap as map;
ghost use Rattle.surf_io.specs.Files.{Files, GivesFrom};

use std::alloc::{AllocError, Global};
use std::collections::VecDeque;
use std::marker::Model;

#[derive(Drop)]
struct StoredFile {
    name: String,
    bytes: Vec<u8>,
}

// A name that was put again stands twice, and the newer file hides the older one.
#[derive(Drop)]
pub struct StoredFiles {
    alloc: Global,
    newest_first: VecDeque<StoredFile>,
}

impl Model for StoredFiles {
    ghost use Rattle.std.specs.Coded.{coded_ℕ, coded_list};
    ghost use Rattle.std.specs.FinMap as map;
    ghost use Rattle.surf_io.specs.Files.{Files};

    ghost Value = { Files };

    ghost coded = { map.code (coded_list coded_ℕ) (coded_list coded_ℕ) };

    ghost use Rattle.surf_io.specs.Stored.{files_of};

    ghost view = { λ s. files_of s.newest_first.items };
}

impl StoredFiles {
    pub fn new(alloc: Global) -> Self
        ensures { result ≡ map.empty }
    {
        Self {
            alloc,
            newest_first: VecDeque::new(alloc),
        }
    }

    pub fn put(&mut self, name: &str, bytes: &[u8]) -> Result<(), AllocError>
        ensures ok { OnOk result (self.new ≡ map.insert self.old name.now bytes.now) }
        ensures err { OnErr result (self.new ≡ self.old) }
    {
        let name = String::from_str(self.alloc, name)?;
        let bytes = Vec::from_slice(self.alloc, bytes)?;
        self.newest_first.push_front(StoredFile { name, bytes })?;
        Ok(())
    }

    // The bytes from the place `at` on that there are and that `into` has room for, if there is
    // such a file.
    pub fn read(&self, name: &str, at: u64, into: &mut [u8]) -> Option<usize>
        ensures absent { MatchOption result (map.get self.now name.now ≡ None)
            (λ n. IsSomeAnd (map.get self.now name.now) (λ bytes. GivesFrom bytes at n into.new)) }
        ensures full { MatchOption result (map.get self.now name.now ≡ None)
            (λ n. IsSomeAnd (map.get self.now name.now) (λ bytes. n ≡ min (length into.new) (length bytes - at))) }
    {
        for file in &self.newest_first {
            if file.name.as_str() == name {
                return Some(copy_from(&file.bytes, at, into));
            }
        }
        None
    }
}

// Copies the bytes from the place `at` on to the front of `into`, as many as it has room for.
fn copy_from(bytes: &[u8], at: u64, into: &mut [u8]) -> usize
    ensures given { GivesFrom bytes.now at result into.new }
    ensures full { result ≡ min (length into.new) (length bytes.now - at) }
{
    let length = bytes.len() as u64;
    if at >= length {
        return 0;
    }
    let rest = &bytes[at as usize..];
    let count = rest.len().min(into.len());
    into[..count].copy_from_slice(&rest[..count]);
    count
}
