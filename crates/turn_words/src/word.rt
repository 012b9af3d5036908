//! Turn words as values.
ghost use Rattle.std.specs.Prelude.{◌≡◌, ◌+◌, ◌-◌, ◌^◌, ◌<◌, [], ◌∷◌, ◌++◌, length, OnOk, OnErr, IfOk, IsTrue, vec_len, ◌↔◌, slice_index};

use std::alloc::{AllocError, Global};
use std::marker::Model;

/// A turn word: empty, or a start direction and then turns.
#[derive(Debug, Drop)]
pub struct TurnWord {
    entries: Vec<u32>,
}

impl Model for TurnWord {
    ghost use Rattle.std.specs.Prelude.{List, ℕ, ◌<◌, ◌^◌, vec_len};

    ghost Value = { List ℕ };

    ghost view = { λ word. word.entries.items };

    ghost invariant = { λ word. vec_len word.entries < 2 ^ 32 };
}

impl TurnWord {
    /// The word of the path without spokes. It takes no memory.
    pub fn new(alloc: Global) -> TurnWord
        ensures { result ≡ [] }
    {
        TurnWord {
            entries: Vec::new(alloc),
        }
    }

    /// The word of the entries, which are moved into it.
    pub(crate) fn from_entries(entries: Vec<u32>) -> TurnWord
        requires { vec_len entries < 2 ^ 32 }
        ensures { result ≡ entries.items }
    {
        TurnWord { entries }
    }

    /// Puts an entry last. Where memory runs out the word stays.
    pub fn push(&mut self, entry: u32) -> Result<(), AllocError>
        requires { length self.old < 2 ^ 32 - 1 }
        ensures ok { OnOk result (self.new ≡ self.old ++ entry ∷ []) }
        ensures err { OnErr result (self.new ≡ self.old) }
    {
        self.entries.push(entry)?;
        Ok(())
    }

    /// How many entries there are.
    pub fn len(&self) -> u32
        ensures { result ≡ length self.now }
    {
        self.entries.len() as u32
    }

    /// Tells whether this is the word of the path without spokes.
    pub fn is_empty(&self) -> bool
        ensures { IsTrue result ↔ (self.now ≡ []) }
    {
        self.entries.is_empty()
    }

    /// The entry with number `k`, counted from 0.
    pub fn at(&self, k: u32) -> u32
        requires { k < length self.now }
        ensures { result ≡ slice_index self.now k }
    {
        self.entries[k as usize]
    }
}

/// The word of a walk, in the form that its degree asks for.
#[derive(Debug, Drop)]
pub enum Word {
    /// Over a degree from 5 on: a turn word.
    Turns(TurnWord),
    /// Over the degree 4: the end of the walk in the plane, in unit steps from its start.
    Flat { x: i64, y: i64 },
}
