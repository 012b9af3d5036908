//! A stack of runs, each a value and how often it stands in a row.
ghost use Rattle.std.specs.Prelude.{◌≡◌, ◌+◌, ◌<◌, ◌≤◌, [], ◌∷◌, ◌++◌, ◌^◌, List, ℕ, length, replicate, IsOk, OnOk, OnErr, IfOk, IfSome, IfNone, MatchOption};
ghost use Rattle.std.specs.Option.{option_to_list};
ghost use Rattle.turn_words.specs.Runs.{written, AreFilled, AreApart};
ghost use Rattle.turn_words.specs.Private.StoredWords.{TopDiffers};

use crate::counter::Steps;
use std::alloc::{AllocError, Global};
use std::marker::Model;
use std::sync::ledger::Ledger;

/// Runs one on top of another, each a value and its count, which is not 0. Each push and each pop counts itself
/// as one step.
#[derive(Debug, Drop)]
pub struct RunStack {
    pairs: Vec<(u32, u32)>,
}

impl Model for RunStack {
    ghost use Rattle.std.specs.Prelude.{◌-◌, vec_len, vec_capacity};
    ghost use Rattle.turn_words.specs.Runs.{RunStackView, AreFilled};

    ghost Value = { RunStackView };

    ghost view = { λ stack. record {
      runs = stack.pairs.items;
      spare = vec_capacity stack.pairs - vec_len stack.pairs;
    } };

    ghost invariant = { λ stack. AreFilled stack.pairs.items };
}

impl RunStack {
    /// No runs. It takes no memory.
    pub fn new(alloc: Global) -> RunStack
        ensures { result ≡ record { runs = []; spare = 0 } }
    {
        RunStack {
            pairs: Vec::new(alloc),
        }
    }

    /// No runs, with room for so many.
    #[inline(always)]
    pub(crate) fn with_room(alloc: Global, runs: u64) -> Result<RunStack, AllocError>
        ensures { IfOk result (λ stack. (stack.runs ≡ []) × (runs ≤ stack.spare)) }
    {
        Ok(RunStack {
            pairs: Vec::with_capacity(alloc, runs as usize)?,
        })
    }

    /// Makes room, so that as many runs can be pushed without a want of memory. The runs stay.
    pub fn reserve(&mut self, runs: u64) -> Result<(), AllocError>
        ensures spare { OnOk result (runs ≤ self.new.spare) }
        ensures runs { self.new.runs ≡ self.old.runs }
        ensures kept { self.old.spare ≤ self.new.spare }
        ensures sure { runs ≤ self.old.spare → IsOk result }
        ensures refused { OnErr result (self.new ≡ self.old) }
    {
        self.pairs.reserve(runs as usize)
    }

    /// How many runs there are.
    pub fn len(&self) -> u64
        ensures length { result ≡ length self.now.runs }
        ensures filled { AreFilled self.now.runs }
    {
        self.pairs.len() as u64
    }

    /// Puts a run on top. Where memory runs out everything stays.
    pub fn push<L: Ledger>(
        &mut self,
        value: u32,
        count: u32,
        steps: &mut Steps<L>,
    ) -> Result<(), AllocError>
        requires { 0 < count }
        ensures ok { OnOk result (self.new.runs ≡ self.old.runs ++ (value, count) ∷ []) }
        ensures err { OnErr result (self.new ≡ self.old) }
        ensures sure { 1 ≤ self.old.spare → IsOk result }
        ensures spare { self.old.spare ≤ self.new.spare + 1 }
        ensures counted { steps.new ≡ steps.old + 1 }
    {
        steps.tick();
        self.pairs.reserve(1)?;
        self.pairs.push_reserved((value, count));
        Ok(())
    }

    /// Takes the run on top off, and gives its room back.
    pub fn pop<L: Ledger>(&mut self, steps: &mut Steps<L>) -> Option<(u32, u32)>
        ensures runs { self.old.runs ≡ self.new.runs ++ option_to_list result }
        ensures none { IfNone result (self.old.runs ≡ []) }
        ensures filled { IfSome result (λ run. 0 < run.1) }
        ensures spare { self.new.spare ≡ self.old.spare + length (option_to_list result) }
        ensures counted { steps.new ≡ steps.old + 1 }
    {
        steps.tick();
        self.pairs.pop()
    }

    /// Puts a run on top, for which there is room.
    #[inline(always)]
    pub(crate) fn push_reserved<L: Ledger>(&mut self, value: u32, count: u32, steps: &mut Steps<L>)
        requires count { 0 < count }
        requires room { 1 ≤ self.old.spare }
        ensures runs { self.new.runs ≡ self.old.runs ++ (value, count) ∷ [] }
        ensures spare { self.new.spare + 1 ≡ self.old.spare }
        ensures counted { steps.new ≡ steps.old + 1 }
    {
        steps.tick();
        self.pairs.push_reserved((value, count));
    }

    /// Takes the run of a value off the top, and tells how long it was: 0 where the run on top has another value.
    #[inline(always)]
    pub(crate) fn take_run<L: Ledger>(&mut self, value: u32, steps: &mut Steps<L>) -> u32
        requires { AreApart self.old.runs }
        ensures written { written self.old.runs ≡ written self.new.runs ++ replicate result value }
        ensures filled { AreFilled self.new.runs }
        ensures apart { AreApart self.new.runs }
        ensures differs { TopDiffers value self.new.runs }
        ensures room { length self.new.runs + self.new.spare ≡ length self.old.runs + self.old.spare }
        ensures fewer { length self.new.runs ≤ length self.old.runs }
        ensures taken { 0 < result → length self.new.runs + 1 ≡ length self.old.runs }
        ensures counted { steps.new ≤ steps.old + 1 }
    {
        let Some((top, _)) = self.top() else {
            return 0;
        };
        if top != value {
            return 0;
        }
        match self.pop(steps) {
            Some((_, count)) => count,
            None => 0,
        }
    }

    /// Takes the last of the values off that the runs stand for.
    #[inline(always)]
    pub(crate) fn pop_one<L: Ledger>(&mut self, steps: &mut Steps<L>) -> Option<u32>
        requires { AreApart self.old.runs }
        ensures cases { MatchOption result ((self.old.runs ≡ []) × (self.new.runs ≡ []))
            (λ value. written self.old.runs ≡ written self.new.runs ++ value ∷ []) }
        ensures apart { AreApart self.new.runs }
        ensures room { length self.new.runs + self.new.spare ≡ length self.old.runs + self.old.spare }
        ensures fewer { length self.new.runs ≤ length self.old.runs }
        ensures counted { steps.new ≤ steps.old + 2 }
    {
        let (value, count) = self.pop(steps)?;
        if count > 1 {
            self.push_reserved(value, count - 1, steps);
        }
        Some(value)
    }

    /// Puts a run on top, for which there is room. It joins the run that is there where the value is the same.
    #[inline(always)]
    pub(crate) fn join<L: Ledger>(&mut self, value: u32, count: u32, steps: &mut Steps<L>)
        requires count { 0 < count }
        requires room { 1 ≤ self.old.spare }
        requires short { length (written self.old.runs) + count < 2 ^ 32 }
        requires apart { AreApart self.old.runs }
        ensures written { written self.new.runs ≡ written self.old.runs ++ replicate count value }
        ensures apart { AreApart self.new.runs }
        ensures room { length self.new.runs + self.new.spare ≡ length self.old.runs + self.old.spare }
        ensures more { length self.new.runs ≤ length self.old.runs + 1 }
        ensures counted { steps.new ≤ steps.old + 2 }
    {
        let under = self.take_run(value, steps);
        self.push_reserved(value, under + count, steps);
    }

    /// The run on top.
    #[inline(always)]
    pub(crate) fn top(&self) -> Option<(u32, u32)>
        ensures top { MatchOption result (self.now.runs ≡ [])
            (λ run. (below : List (ℕ × ℕ)) × (self.now.runs ≡ below ++ run ∷ [])) }
        ensures filled { AreFilled self.now.runs }
    {
        let runs = self.pairs.as_slice();
        if runs.is_empty() {
            return None;
        }
        Some(runs[runs.len() - 1])
    }

    /// The runs, the bottom one first.
    #[inline(always)]
    pub(crate) fn as_slice(&self) -> &[(u32, u32)]
        ensures runs { result.now ≡ self.now.runs }
        ensures filled { AreFilled self.now.runs }
    {
        self.pairs.as_slice()
    }

    /// Takes all runs off, and gives their room back.
    pub(crate) fn clear(&mut self)
        ensures runs { self.new.runs ≡ [] }
        ensures spare { self.new.spare ≡ length self.old.runs + self.old.spare }
    {
        self.pairs.clear();
    }
}
