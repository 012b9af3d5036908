//! The places where parts end, listed.
ghost use Rattle.std.specs.Prelude.{◌≡◌, ◌+◌, ◌<◌, ◌≤◌, [], ◌∷◌, ◌++◌, length, slice_index, OnOk, OnErr, IfOk};
ghost use Rattle.surf_model.specs.Parts.{last_end, IsInPart};
ghost use Rattle.surf_model.specs.declared.limits.TheConstants.{MOST_SIDES};

use std::alloc::{AllocError, Global};
use std::marker::Model;

/// The places where the parts end, seen as the list of these places.
///
/// The part of every sixteenth place is marked, so that the part of any place is found in a few steps where parts are
/// not tiny.
#[derive(Debug, Drop)]
pub(crate) struct ListedParts {
    ends: Vec<u32>,
    marks: Vec<u32>,
}

impl Model for ListedParts {
    ghost use Rattle.std.specs.Prelude.{ℕ, List};
    ghost use Rattle.surf_model.specs.Parts.{IsPartList};

    ghost Value = { List ℕ };

    ghost view = { λ a. a.ends.items };

    ghost invariant = { λ a. IsPartList a.ends.items a.marks.items };
}

impl ListedParts {
    /// No parts. It takes no memory.
    pub(crate) fn new(alloc: Global) -> ListedParts
        ensures { result ≡ [] }
    {
        ListedParts {
            ends: Vec::new(alloc),
            marks: Vec::new(alloc),
        }
    }

    /// Puts a part of this size last.
    pub(crate) fn push(&mut self, size: u32) -> Result<(), AllocError>
        requires some { 0 < size }
        requires room { last_end self.old + size ≤ MOST_SIDES }
        ensures ok { OnOk result (self.new ≡ self.old ++ (last_end self.old + size) ∷ []) }
        ensures err { OnErr result (self.new ≡ self.old) }
    {
        let end = self.total() + size;
        let part = self.len();
        self.ends.reserve(1)?;
        self.marks.resize((end as usize + 15) / 16, part)?;
        self.ends.push(end).unwrap();
        Ok(())
    }

    /// The number of parts.
    pub(crate) fn len(&self) -> u32
        ensures { result ≡ length self.now }
    {
        self.ends.len() as u32
    }

    /// Where the last part ends: the size of all together.
    pub(crate) fn total(&self) -> u32
        ensures { result ≡ last_end self.now }
    {
        match self.ends.last() {
            Some(end) => *end,
            None => 0,
        }
    }

    /// Where a part ends.
    pub(crate) fn end(&self, part: u32) -> u32
        requires { part < length self.now }
        ensures end { result ≡ slice_index self.now part }
        // What holds of all parts.
        ensures rises { slice_index (0 ∷ self.now) part ≤ result }
        ensures within { result ≤ last_end self.now }
    {
        self.ends[part as usize]
    }

    /// The part in which a place lies.
    pub(crate) fn part_at(&self, place: u32) -> u32
        requires { place < last_end self.now }
        ensures { IsInPart self.now place result }
    {
        let mut part = self.marks[place as usize / 16];
        while self.ends[part as usize] <= place {
            part += 1;
        }
        part
    }

    /// The same parts once more.
    pub(crate) fn copy(&self) -> Result<ListedParts, AllocError>
        ensures { IfOk result (λ parts. parts ≡ self.now) }
    {
        Ok(ListedParts {
            ends: self.ends.clone()?,
            marks: self.marks.clone()?,
        })
    }
}
