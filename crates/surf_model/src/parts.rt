//! A list of lists, kept as one vector and the places where its parts end.
ghost use Rattle.std.specs.Prelude.{◌≡◌, ◌+◌, ◌<◌, ◌≤◌, [], ◌∷◌, ◌++◌, length, slice_index, OnOk, OnErr, IfOk};
ghost use Rattle.surf_model.specs.Parts.{last_end, IsInPart};
ghost use Rattle.surf_model.specs.declared.limits.TheConstants.{MOST_SIDES};

use crate::listed_parts::ListedParts;
use std::alloc::{AllocError, Global};
use std::marker::Model;

/// The places where the parts end, seen as the list of these places.
///
/// The first parts are those of one size, and need no list: where they end is a product, and the part of a place a quotient.
/// So a mesh of triangles alone, or of quads alone, takes no memory here, and none is looked at.
#[derive(Debug, Drop)]
pub(crate) struct Parts {
    /// The size of the first parts.
    size: u32,
    /// How many parts these are.
    count: u32,
    /// The parts behind these, by places that are counted from the end of these on.
    rest: ListedParts,
}

impl Model for Parts {
    ghost use Rattle.std.specs.Prelude.{ℕ, List};
    ghost use Rattle.surf_model.specs.Parts.{joined_ends, AreJoinedParts};

    ghost Value = { List ℕ };

    ghost view = { λ a. joined_ends a.size a.count a.rest };

    ghost invariant = { λ a. AreJoinedParts a.size a.count a.rest };
}

impl Parts {
    /// No parts. It takes no memory.
    pub(crate) fn new(alloc: Global) -> Parts
        ensures { result ≡ [] }
    {
        Parts {
            size: 0,
            count: 0,
            rest: ListedParts::new(alloc),
        }
    }

    /// Puts a part of this size last.
    pub(crate) fn push(&mut self, size: u32) -> Result<(), AllocError>
        requires some { 0 < size }
        requires room { last_end self.old + size ≤ MOST_SIDES }
        ensures ok { OnOk result (self.new ≡ self.old ++ (last_end self.old + size) ∷ []) }
        ensures err { OnErr result (self.new ≡ self.old) }
    {
        if self.rest.len() == 0 && (self.count == 0 || size == self.size) {
            self.size = size;
            self.count += 1;
        } else {
            self.rest.push(size)?;
        }
        Ok(())
    }

    /// The number of parts.
    pub(crate) fn len(&self) -> u32
        ensures { result ≡ length self.now }
    {
        self.count + self.rest.len()
    }

    /// Where the last part ends: the size of all together.
    pub(crate) fn total(&self) -> u32
        ensures { result ≡ last_end self.now }
    {
        self.size * self.count + self.rest.total()
    }

    /// Where a part starts.
    pub(crate) fn start(&self, part: u32) -> u32
        requires { part < length self.now }
        ensures { result ≡ slice_index (0 ∷ self.now) part }
    {
        if part <= self.count {
            self.size * part
        } else {
            self.size * self.count + self.rest.end(part - self.count - 1)
        }
    }

    /// Where a part ends.
    pub(crate) fn end(&self, part: u32) -> u32
        requires { part < length self.now }
        ensures end { result ≡ slice_index self.now part }
        // What holds of all parts.
        ensures rises { slice_index (0 ∷ self.now) part ≤ result }
        ensures within { result ≤ last_end self.now }
    {
        if part < self.count {
            self.size * (part + 1)
        } else {
            self.size * self.count + self.rest.end(part - self.count)
        }
    }

    /// The part in which a place lies.
    pub(crate) fn part_at(&self, place: u32) -> u32
        requires { place < last_end self.now }
        ensures { IsInPart self.now place result }
    {
        let listed = self.size * self.count;
        if place >= listed {
            return self.count + self.rest.part_at(place - listed);
        }
        // The compiler knows how to divide by a number that stands here without a division.
        match self.size {
            3 => place / 3,
            4 => place / 4,
            size => place / size,
        }
    }

    /// The same parts once more.
    pub(crate) fn copy(&self) -> Result<Parts, AllocError>
        ensures { IfOk result (λ parts. parts ≡ self.now) }
    {
        Ok(Parts {
            size: self.size,
            count: self.count,
            rest: self.rest.copy()?,
        })
    }
}
