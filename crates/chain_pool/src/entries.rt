//! Readers of a chain, from its place outwards.
ghost use Rattle.std.specs.Prelude.{◌≡◌, ◌<◌, length, slice_index};
ghost use Rattle.std.specs.Iterator.{YieldsFirst, item_count};

use crate::cells::{Cell, Stack, entry};
use slab::Slab;
use std::marker::Model;

/// The entries of a chain on one side of its place, the nearest first, seen as those that are left.
#[derive(Drop)]
pub struct Entries<'a> {
    slots: &'a Slab<Cell>,
    stack: Stack,
}

impl<'a> Model for Entries<'a> {
    ghost use Rattle.std.specs.Prelude.{ℕ, List};

    ghost Value = { List ℕ };

    ghost use Rattle.chain_pool.specs.Memory.{memory_of, values, IsStack};

    ghost view = { λ e. values (memory_of e.slots.now.slots) e.stack.len e.stack.top };

    ghost invariant = { λ e. IsStack (memory_of e.slots.now.slots) e.stack.len e.stack.top };
}

/// Both sides of a chain: the list is the first, turned round, and then the second.
#[derive(Drop)]
pub struct Halves<'a> {
    pub before: Entries<'a>,
    pub behind: Entries<'a>,
}

impl<'a> Entries<'a> {
    ghost use Rattle.chain_pool.specs.Memory.{memory_of, values, IsStack};

    /// The entries of a stack.
    pub(crate) fn new(slots: &'a Slab<Cell>, stack: Stack) -> Entries<'a>
        requires { IsStack (memory_of slots.now.slots) stack.len stack.top }
        ensures { result ≡ values (memory_of slots.now.slots) stack.len stack.top }
    {
        Entries { slots, stack }
    }

    /// The number of entries that are left.
    pub fn len(&self) -> u32
        ensures { result ≡ length self.now }
    {
        self.stack.len
    }
}

impl<'a> Iterator for Entries<'a> {
    type Item = u32;

    ghost next_gives = { YieldsFirst (λ rest. rest) };

    ghost remaining = { item_count (λ rest. rest) };

    fn next(&mut self) -> Option<u32> {
        if self.stack.len == 0 {
            return None;
        }
        let (next, value) = entry(self.slots, self.stack.top);
        self.stack = Stack {
            top: next,
            len: self.stack.len - 1,
        };
        Some(value)
    }
}
