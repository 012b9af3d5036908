//! Lists of numbers, each from a line of a text.
ghost use Rattle.std.specs.Prelude.{◌≡◌, ◌<◌, [], ◌∷◌, ◌++◌, length, OnOk, OnErr};

use std::alloc::{AllocError, Global};
use std::marker::Model;

/// Where the numbers of a line lie among those of all lines.
#[derive(Clone, Copy, Debug)]
struct Place {
    line: u64,
    start: usize,
    end: usize,
}

/// Lists of numbers, each with the number of its line.
#[derive(Debug, Drop)]
pub struct NumberLines {
    places: Vec<Place>,
    /// The numbers of all lines, line after line.
    numbers: Vec<u32>,
}

/// Lists of numbers, and the numbers so far of the present line, which is of none of them yet.
#[derive(Debug, Drop)]
pub(crate) struct LinesBuilder {
    places: Vec<Place>,
    /// The numbers of all lines, line after line, and of the present one.
    numbers: Vec<u32>,
    /// Where the numbers of the present line begin.
    start: usize,
}

impl Model for NumberLines {
    ghost use Rattle.std.specs.Prelude.{List};
    ghost use Rattle.walk_files.specs.NumberLists.{NumberLine, stored_lists, AreWithin};

    ghost Value = { List NumberLine };

    ghost view = { λ a. stored_lists a.places.items a.numbers.items };

    ghost invariant = { λ a. AreWithin a.places.items a.numbers.items };
}

impl Model for LinesBuilder {
    ghost use Rattle.std.specs.Prelude.{◌≤◌, length, drop};
    ghost use Rattle.walk_files.specs.NumberLists.{PendingLists, stored_lists, AreWithin};

    ghost Value = { PendingLists };

    ghost view = { λ a. record { lists = stored_lists a.places.items a.numbers.items; pending = drop a.start a.numbers.items } };

    ghost invariant = { λ a. AreWithin a.places.items a.numbers.items × (a.start ≤ length a.numbers.items) };
}

impl LinesBuilder {
    ghost use Rattle.walk_files.specs.NumberLists.{NumberLine, PendingLists};

    /// No lists, and no numbers. It takes no memory.
    pub(crate) fn new(alloc: Global) -> LinesBuilder
        ensures { result ≡ record { lists = []; pending = [] } }
    {
        LinesBuilder {
            places: Vec::new(alloc),
            numbers: Vec::new(alloc),
            start: 0,
        }
    }

    /// The number of lists.
    pub(crate) fn len(&self) -> u64
        ensures { result ≡ length self.now.lists }
    {
        self.places.len() as u64
    }

    /// Puts numbers last in the present line.
    pub(crate) fn extend(&mut self, numbers: &[u32]) -> Result<(), AllocError>
        ensures ok { OnOk result (self.new ≡ record self.old { pending = self.old.pending ++ numbers.now }) }
        ensures err { OnErr result (self.new ≡ self.old) }
    {
        self.numbers.extend_from_slice(numbers)?;
        Ok(())
    }

    /// Puts the numbers of the present line last among the lists. The line that is the present one then has none yet.
    pub(crate) fn close(&mut self, line: u64) -> Result<(), AllocError>
        ensures lists { OnOk result (self.new.lists ≡ self.old.lists ++ record { line = line; numbers = self.old.pending } ∷ []) }
        ensures pending { OnOk result (self.new.pending ≡ []) }
        ensures err { OnErr result (self.new ≡ self.old) }
    {
        let start = self.start;
        let end = self.numbers.len();
        self.places.push(Place { line, start, end })?;
        self.start = end;
        Ok(())
    }

    /// The lists. The numbers of the present line are of none of them.
    pub(crate) fn finish(self) -> NumberLines
        ensures { result ≡ self.lists }
    {
        NumberLines {
            places: self.places,
            numbers: self.numbers,
        }
    }
}

impl NumberLines {
    ghost use Rattle.walk_files.specs.NumberLists.{NumberLine, line_at};

    /// The number of lists.
    pub fn len(&self) -> u64
        ensures { result ≡ length self.now }
    {
        self.places.len() as u64
    }

    /// The number of the line of list `k`. Lists are counted from 0, lines from 1.
    pub fn line(&self, k: u64) -> u64
        requires { k < length self.now }
        ensures { result ≡ (line_at self.now k).line }
    {
        self.places[k as usize].line
    }

    /// The numbers of list `k`, counted from 0.
    pub fn numbers(&self, k: u64) -> &[u32]
        requires { k < length self.now }
        ensures { result.now ≡ (line_at self.now k).numbers }
    {
        let place = self.places[k as usize];
        &self.numbers[place.start..place.end]
    }
}
