//! Lists that are edited in place, in cells that are reserved before.
ghost use Rattle.std.specs.Prelude.{◌≡◌, ◌+◌, ◌-◌, ◌<◌, ◌≤◌, ◌≢◌, ◌^◌, ℕ, [], length, reverse, ◌++◌, slice_index, Some, None, IsOk, OnOk, OnErr, max};
ghost use Rattle.chain_pool.specs.Chains.{under, IsEdit, IsAlike, IsLive, list_of, cells_in, inserted, cut, spliced};

use crate::cells::{CellName, Cells};
use crate::entries::{Entries, Halves};
use std::alloc::{AllocError, Global};
use std::marker::Model;

/// Lists of numbers under names, and a number of cells that can be taken with no memory.
///
/// An edit of a list costs the way from the chain's remembered place, where its last edit was, and the entries that go
/// in or out.
#[derive(Drop)]
pub struct Pool {
    cells: Cells,
}

impl Model for Pool {
    ghost use Rattle.chain_pool.specs.Chains.{Chains};
    ghost use Rattle.chain_pool.specs.Memory.{joined_lists};

    ghost Value = { Chains };

    ghost view = { λ a. record { lists = joined_lists a.cells.chains; spare = a.cells.spare } };
}

impl Pool {
    /// No chains, and no cells that can be taken. It takes no memory.
    pub fn new(alloc: Global) -> Pool
        ensures lists { result.lists ≡ [] }
        ensures spare { result.spare ≡ 0 }
    {
        Pool {
            cells: Cells::new(alloc),
        }
    }

    /// Makes room, so that at least `n` cells can be taken. No chain changes. The error is that there is no memory for
    /// so many, and then as many can be taken as before.
    pub fn reserve(&mut self, n: u32) -> Result<(), AllocError>
        requires { cells_in self.old.lists + max n self.old.spare < 2 ^ 32 }
        ensures lists { IsAlike self.old.lists self.new.lists }
        ensures spare { OnOk result (self.new.spare ≡ max n self.old.spare) }
        ensures refused { OnErr result (self.new.spare ≡ self.old.spare) }
    {
        self.cells.reserve(n)
    }

    /// The number of cells that can be taken with no memory.
    pub fn spare(&self) -> u32
        ensures { result ≡ self.now.spare }
    {
        self.cells.spare()
    }

    /// A new chain with no entries, which costs one cell.
    pub fn start_chain(&mut self) -> CellName
        requires { 0 < self.old.spare }
        ensures was { under self.old.lists result.0 ≡ None }
        ensures list { IsEdit self.old.lists self.new.lists result.0 (Some []) }
        ensures spare { self.new.spare + 1 ≡ self.old.spare }
    {
        self.cells.make_ready();
        self.cells.start()
    }

    /// The value becomes entry `place` of a chain. It costs one cell.
    pub fn push_after(&mut self, chain: CellName, place: u32, value: u32)
        requires live { IsLive self.old chain.0 }
        requires place { place ≤ length (list_of self.old chain.0) }
        requires spare { 0 < self.old.spare }
        ensures list { IsEdit self.old.lists self.new.lists chain.0 (Some (inserted (list_of self.old chain.0) place value)) }
        ensures spare { self.new.spare + 1 ≡ self.old.spare }
    {
        self.cells.go_to(chain, place);
        self.cells.make_ready();
        self.cells.push(chain, value);
    }

    /// The entries of a chain from place `from` up to `to`, without `to`, go. Their cells can be taken again. A cut of
    /// no entries goes to the place, so that the next edit there costs no way.
    pub fn cut_between(&mut self, chain: CellName, from: u32, to: u32)
        requires live { IsLive self.old chain.0 }
        requires order { from ≤ to }
        requires place { to ≤ length (list_of self.old chain.0) }
        ensures list { IsEdit self.old.lists self.new.lists chain.0 (Some (cut (list_of self.old chain.0) from to)) }
        ensures spare { self.new.spare + from ≡ self.old.spare + to }
        ensures nothing { from ≡ to → self.new ≡ self.old }
    {
        self.cells.go_to(chain, from);
        for _i in from..to {
            self.cells.cut(chain);
        }
    }

    /// The number of entries of a chain.
    pub fn len(&self, chain: CellName) -> u32
        requires { IsLive self.now chain.0 }
        ensures { result ≡ length (list_of self.now chain.0) }
    {
        self.cells.len(chain)
    }

    /// An entry of a chain. It costs the way from the chain's remembered place.
    pub fn at(&self, chain: CellName, place: u32) -> u32
        requires live { IsLive self.now chain.0 }
        requires place { place < length (list_of self.now chain.0) }
        ensures { result ≡ slice_index (list_of self.now chain.0) place }
    {
        let halves = self.halves(chain);
        let before = halves.before.len();
        if place < before {
            entry_at(halves.before, before - 1 - place)
        } else {
            entry_at(halves.behind, place - before)
        }
    }

    /// An entry of a chain, whose place becomes the remembered one. Of the pool the same is seen. It costs the way from the
    /// place that was remembered, so entries read one after the other cost a step each.
    pub fn entry(&mut self, chain: CellName, place: u32) -> u32
        requires live { IsLive self.old chain.0 }
        requires place { place < length (list_of self.old chain.0) }
        ensures value { result ≡ slice_index (list_of self.old chain.0) place }
        ensures same { self.new ≡ self.old }
    {
        self.cells.go_to(chain, place);
        self.cells.next(chain)
    }

    /// Readers of both sides of a chain's remembered place. The list is the first side turned round, and then the second.
    pub fn halves(&self, chain: CellName) -> Halves<'_>
        requires { IsLive self.now chain.0 }
        ensures { reverse result.before ++ result.behind ≡ list_of self.now chain.0 }
    {
        self.cells.halves(chain)
    }

    /// A chain goes, and all its cells can be taken again.
    pub fn give_back(&mut self, chain: CellName)
        requires { IsLive self.old chain.0 }
        ensures gone { IsEdit self.old.lists self.new.lists chain.0 None }
        ensures spare { self.new.spare ≡ self.old.spare + length (list_of self.old chain.0) + 1 }
    {
        let len = self.len(chain);
        self.cut_between(chain, 0, len);
        self.cells.drop_head(chain);
    }

    /// All entries of another chain are moved in at a place, and the other chain goes. It costs the ways to the place and
    /// to the start of the other chain, and the other chain's entries.
    pub fn splice(&mut self, chain: CellName, place: u32, other: CellName)
        requires live { IsLive self.old chain.0 }
        requires other_live { IsLive self.old other.0 }
        requires differ { chain.0 ≢ other.0 }
        requires place { place ≤ length (list_of self.old chain.0) }
        ensures list { under self.new.lists chain.0
            ≡ Some (spliced (list_of self.old chain.0) place (list_of self.old other.0)) }
        ensures gone { under self.new.lists other.0 ≡ None }
        ensures others { (name : ℕ) → name ≢ chain.0 → name ≢ other.0 → under self.new.lists name ≡ under self.old.lists name }
        ensures spare { self.new.spare ≡ self.old.spare + 1 }
    {
        self.cells.go_to(chain, place);
        self.cells.go_to(other, 0);
        let len = self.cells.len(other);
        for _i in 0..len {
            let moved = self.cells.next(other);
            self.cells.cut(other);
            self.cells.push(chain, moved);
        }
        self.cells.drop_head(other);
    }
}

/// The entry that so many others lie before.
fn entry_at(mut entries: Entries<'_>, place: u32) -> u32
    requires { place < length entries }
    ensures { result ≡ slice_index entries.entry place }
{
    for _i in 0..place {
        entries.next();
    }
    entries.next().unwrap()
}
