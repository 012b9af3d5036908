//! A turn word that is kept as runs, and the edits at its end.
ghost use Rattle.std.specs.Prelude.{◌≡◌, ◌+◌, ◌^◌, ◌<◌, ◌≤◌, ◌++◌, ◌∷◌, ◌↔◌, [], length, reverse, replicate, IsOk, OnOk, OnErr, IfOk, IsTrue, vec_len, vec_capacity};
ghost use Rattle.turn_words.specs.Canonical.{turns_of};
ghost use Rattle.turn_words.specs.PutTurns.{is_open};
ghost use Rattle.turn_words.specs.Runs.{AreRunsOf};
ghost use Rattle.turn_words.specs.Private.StoredWords.{EndsOtherwise, EndsBelow, last_changed};

use crate::counter::Steps;
use crate::modulo::sum_modulo;
use crate::run_stack::RunStack;
use crate::word::TurnWord;
use std::alloc::{AllocError, Global};
use std::marker::Model;
use std::sync::ledger::Ledger;

/// A turn word: its start direction, and the runs of its turns. Neighbouring runs have different values.
///
/// An edit that turns a run round moves it as a whole, so it costs the same whatever the run's length is.
#[derive(Debug, Drop)]
pub(crate) struct RunWord {
    len: u32,
    // Of no meaning where the word is empty.
    start: u32,
    runs: RunStack,
}

impl Model for RunWord {
    ghost use Rattle.std.specs.Prelude.{◌+◌, length};
    ghost use Rattle.turn_words.specs.Private.StoredWords.{RunWordView, IsStoredWord, word_of_runs};

    ghost Value = { RunWordView };

    ghost view = { λ word. record {
      word = word_of_runs word.len word.start word.runs.runs;
      runs = word.runs.runs;
      room = length word.runs.runs + word.runs.spare;
    } };

    ghost invariant = { λ word. IsStoredWord word.len word.runs.runs };
}

impl RunWord {
    /// The empty word. It takes no memory.
    pub(crate) fn new(alloc: Global) -> RunWord
        ensures { result ≡ record { word = []; runs = []; room = 0 } }
    {
        RunWord {
            len: 0,
            start: 0,
            runs: RunStack::new(alloc),
        }
    }

    /// The empty word, with room for so many entries and for one run beside them.
    #[inline(always)]
    pub(crate) fn with_room(alloc: Global, entries: u32) -> Result<RunWord, AllocError>
        ensures { IfOk result (λ word. (word.word ≡ []) × (entries + 1 ≤ word.room)) }
    {
        Ok(RunWord {
            len: 0,
            start: 0,
            runs: RunStack::with_room(alloc, u64::from(entries) + 1)?,
        })
    }

    /// Makes room in all for as many entries more than the word has, and for one run beside them.
    pub(crate) fn reserve(&mut self, entries: u32) -> Result<(), AllocError>
        ensures word { self.new.word ≡ self.old.word }
        ensures runs { self.new.runs ≡ self.old.runs }
        ensures room { OnOk result (length self.new.word + entries + 1 ≤ self.new.room) }
        ensures kept { self.old.room ≤ self.new.room }
        ensures sure { length self.old.word + entries + 1 ≤ self.old.room → IsOk result }
        ensures refused { OnErr result (self.new ≡ self.old) }
    {
        let runs = u64::from(self.len) + u64::from(entries) + 1 - self.runs.len();
        self.runs.reserve(runs)
    }

    /// Goes back to the empty word, and keeps the room.
    pub(crate) fn clear(&mut self)
        ensures word { self.new.word ≡ [] }
        ensures room { self.new.room ≡ self.old.room }
    {
        self.len = 0;
        self.runs.clear();
    }

    /// How many entries the word has.
    #[inline(always)]
    pub(crate) fn len(&self) -> u32
        ensures length { result ≡ length self.now.word }
        ensures runs { length self.now.runs ≤ length self.now.word }
    {
        // The proof reads that no run is empty.
        let _ = self.runs.len();
        self.len
    }

    /// The runs of the turns, the first turns first.
    pub(crate) fn runs(&self) -> &RunStack
        ensures same { result.now.runs ≡ self.now.runs }
        ensures turns { AreRunsOf (turns_of self.now.word) self.now.runs }
    {
        // The proof reads that no run is empty.
        let _ = self.runs.len();
        &self.runs
    }

    /// Tells whether two words are equal.
    pub(crate) fn same(&self, other: &RunWord) -> bool
        ensures { IsTrue result ↔ (self.now.word ≡ other.now.word) }
    {
        self.len == other.len
            && (self.len == 0 || self.start == other.start)
            && self.runs.as_slice() == other.runs.as_slice()
    }

    /// The word with its runs written out.
    #[inline(always)]
    pub(crate) fn written(&self, alloc: Global) -> Result<TurnWord, AllocError>
        ensures { IfOk result (λ word. word ≡ self.now.word) }
    {
        if self.len == 0 {
            return Ok(TurnWord::new(alloc));
        }
        let mut entries = Vec::with_capacity(alloc, self.len as usize + 1)?;
        entries.push_reserved(self.start);
        for (value, count) in self.runs.as_slice() {
            push_copies(&mut entries, *value, *count);
        }
        Ok(TurnWord::from_entries(entries))
    }

    /// Tells whether the word ends in a turn 1 and then turns 2, of which there may be none.
    #[inline(always)]
    pub(crate) fn is_open(&self) -> bool
        ensures { result ≡ is_open (reverse self.now.word) }
    {
        let runs = self.runs.as_slice();
        let top = runs.len();
        if top == 0 {
            return false;
        }
        if runs[top - 1].0 == 1 {
            return true;
        }
        if runs[top - 1].0 != 2 {
            return false;
        }
        top >= 2 && runs[top - 2].0 == 1
    }

    /// The first entry of an empty word.
    #[inline(always)]
    pub(crate) fn begin(&mut self, start: u32)
        requires { self.old.word ≡ [] }
        ensures word { self.new.word ≡ start ∷ [] }
        ensures runs { self.new.runs ≡ self.old.runs }
        ensures room { self.new.room ≡ self.old.room }
    {
        self.start = start;
        self.len = 1;
    }

    /// Takes the run of a value off the end, the run of turns taken whole, and tells how long it was.
    #[inline(always)]
    pub(crate) fn take_run<L: Ledger>(&mut self, value: u32, steps: &mut Steps<L>) -> u32
        requires { 0 < length self.old.word }
        ensures word { reverse self.old.word ≡ replicate result value ++ reverse self.new.word }
        ensures whole { EndsOtherwise value (reverse self.new.word) }
        ensures room { self.new.room ≡ self.old.room }
        ensures fewer { length self.new.runs ≤ length self.old.runs }
        ensures taken { 0 < result → length self.new.runs + 1 ≡ length self.old.runs }
        ensures counted { steps.new ≤ steps.old + 1 }
    {
        let count = self.runs.take_run(value, steps);
        self.len -= count;
        count
    }

    /// Takes the last entry off.
    #[inline(always)]
    pub(crate) fn pop<L: Ledger>(&mut self, steps: &mut Steps<L>) -> u32
        requires { 0 < length self.old.word }
        ensures word { reverse self.old.word ≡ result ∷ reverse self.new.word }
        ensures room { self.new.room ≡ self.old.room }
        ensures fewer { length self.new.runs ≤ length self.old.runs }
        ensures counted { steps.new ≤ steps.old + 2 }
    {
        self.len -= 1;
        match self.runs.pop_one(steps) {
            Some(value) => value,
            None => self.start,
        }
    }

    /// Adds a number, which is not 0, to the last entry.
    #[inline(always)]
    pub(crate) fn change_last<L: Ledger>(&mut self, degree: u32, by: u32, steps: &mut Steps<L>)
        requires below { EndsBelow degree (reverse self.old.word) }
        requires by { (0 < by) × (by < degree) }
        requires room { length self.old.runs < self.old.room }
        ensures word { reverse self.new.word ≡ last_changed degree by (reverse self.old.word) }
        ensures room { self.new.room ≡ self.old.room }
        ensures more { length self.new.runs ≤ length self.old.runs + 1 }
        ensures counted { steps.new ≤ steps.old + 3 }
    {
        match self.runs.pop(steps) {
            Some((value, count)) => {
                let changed = sum_modulo(degree, value, by);
                if count > 1 {
                    self.runs.push_reserved(value, count - 1, steps);
                    self.runs.push_reserved(changed, 1, steps);
                } else {
                    self.runs.join(changed, 1, steps);
                }
            }
            None => self.start = sum_modulo(degree, self.start, by),
        }
    }

    /// Puts a run of turns last. It joins the run before it where the value is the same.
    #[inline(always)]
    pub(crate) fn push_run<L: Ledger>(&mut self, value: u32, count: u32, steps: &mut Steps<L>)
        requires some { 0 < length self.old.word }
        requires short { length self.old.word + count < 2 ^ 32 }
        requires room { 0 < count → length self.old.runs < self.old.room }
        ensures word { reverse self.new.word ≡ replicate count value ++ reverse self.old.word }
        ensures room { self.new.room ≡ self.old.room }
        ensures more { length self.new.runs ≤ length self.old.runs + 1 }
        ensures none { count ≡ 0 → length self.new.runs ≤ length self.old.runs }
        ensures counted { steps.new ≤ steps.old + 2 }
    {
        if count > 0 {
            self.runs.join(value, count, steps);
            self.len += count;
        }
    }
}

/// Puts copies of an entry last, at least one, for which there is room and for one entry more.
#[inline(always)]
fn push_copies(word: &mut Vec<u32>, entry: u32, count: u32)
    requires some { 0 < count }
    requires room { vec_len word.old + count < vec_capacity word.old }
    ensures items { word.new.items ≡ word.old.items ++ replicate count entry }
    ensures len { vec_len word.new ≡ vec_len word.old + count }
    ensures capacity { vec_capacity word.new ≡ vec_capacity word.old }
{
    // Most runs have one entry. That no branch asks which have saves time: a second one is put, and taken off.
    let end = word.len() + count as usize;
    word.push_reserved(entry);
    word.push_reserved(entry);
    for _ in 2..count {
        word.push_reserved(entry);
    }
    word.truncate(end);
}
