//! The form for degrees from 5 on.
ghost use Rattle.std.specs.Prelude.{◌≡◌, ◌+◌, ◌-◌, ◌^◌, ◌<◌, ◌≤◌, ⊤, All, length, reverse, IsOk, OnOk, OnErr, IfOk};
ghost use Rattle.turn_words.specs.Canonical.{turns_of};
ghost use Rattle.turn_words.specs.HyperStates.{empty_state, hyper_next, value_at, BelongsTo, LeadOn};
ghost use Rattle.turn_words.specs.PutTurns.{put};
ghost use Rattle.turn_words.specs.Recorded.{TellsMore};
ghost use Rattle.turn_words.specs.Runs.{AreRunsOf};
ghost use Rattle.turn_words.specs.Private.PutSteps.{put_steps, rewrite_steps, StoodIn};

use crate::counter::Steps;
use crate::form::Form;
use crate::modulo::{negative_modulo, sum_modulo};
use crate::noting::note_rewrite;
use crate::put::{PutTurn, put_turn};
use crate::recorder::Recorder;
use crate::run_stack::RunStack;
use crate::run_word::RunWord;
use crate::wheel::Wheel;
use crate::word::TurnWord;
use std::alloc::{AllocError, Global};
use std::marker::{Brand, Model};
use std::sync::ledger::{Blank, Ledger};
use surf_model::Spoke;

/// The canonical word of a walk over a degree from 5 on, and the number from which the turn of its next
/// spoke is counted.
#[derive(Debug, Drop)]
pub struct Hyper {
    word: RunWord,
    number: u32,
}

impl Model for Hyper {
    ghost use Rattle.std.specs.Prelude.{◌+◌, ◌-◌, length};
    ghost use Rattle.turn_words.specs.HyperStates.{HyperView};

    ghost Value = { HyperView };

    // A put needs room for one run beside the turns that there can be.
    ghost view = { λ hyper. record {
      state = record { word = hyper.word.word; number = hyper.number };
      runs = hyper.word.runs;
      spare = hyper.word.room - (length hyper.word.word + 1);
    } };
}

impl Hyper {
    /// The form in the state of the empty word. It takes no memory.
    pub fn new(alloc: Global) -> Hyper
        ensures { result.state ≡ empty_state }
    {
        Hyper {
            word: RunWord::new(alloc),
            number: 0,
        }
    }

    /// Makes room, so that as many spokes can be put without a want of memory. The state stays.
    pub fn reserve(&mut self, spokes: u32) -> Result<(), AllocError>
        ensures spare { OnOk result (spokes ≤ self.new.spare) }
        ensures state { self.new.state ≡ self.old.state }
        ensures kept { self.old.spare ≤ self.new.spare }
        ensures refused { OnErr result (self.new ≡ self.old) }
    {
        self.word.reserve(spokes)
    }

    /// The canonical word, without the number.
    pub fn word(&self, alloc: Global) -> Result<TurnWord, AllocError>
        ensures { IfOk result (λ word. word ≡ self.now.state.word) }
    {
        self.word.written(alloc)
    }

    /// The runs of the word's turns, the first turns first. The start direction is in none of them.
    pub fn runs(&self) -> &RunStack
        ensures runs { result.now.runs ≡ self.now.runs }
        ensures turns { AreRunsOf (turns_of self.now.state.word) self.now.runs }
    {
        self.word.runs()
    }
}

impl Form for Hyper {
    ghost use Rattle.std.specs.Prelude.{◌-◌, ◌^◌, length};
    ghost use Rattle.turn_words.specs.HyperStates.{HyperState, empty_state, IsHyperWheel, BelongsTo, IsEven, hyper_next, LeadOn};
    ghost use Rattle.turn_words.specs.Lemmas.HyperLaws.{hyper_starts, hyper_stays, hyper_there_and_back, hyper_across};

    ghost State = { HyperState };

    ghost state = { λ hyper. hyper.state };

    ghost empty = { empty_state };

    ghost IsOwn = { IsHyperWheel };

    ghost Belongs = { BelongsTo };

    ghost IsAtVertex = { IsEven };

    ghost size = { λ state. length state.word };

    ghost limit = { 2 ^ 32 - 2 };

    ghost next = { hyper_next };

    ghost Notes = { LeadOn };

    ghost starts = { hyper_starts };

    ghost stays = { hyper_stays };

    ghost there_and_back = { hyper_there_and_back };

    ghost across = { hyper_across };

    fn restart(&mut self)
        ensures state { self.new.state ≡ empty_state }
        ensures spare { self.old.spare ≤ self.new.spare }
    {
        self.word.clear();
        self.number = 0;
    }

    fn act<R: Recorder>(
        &mut self,
        wheel: &Wheel,
        spoke: Spoke,
        recorder: &mut R,
    ) -> Result<(), AllocError>
        requires belongs { BelongsTo wheel.now self.old.state }
        requires spoke { spoke.0 < length wheel.now }
        requires room { length self.old.state.word < 2 ^ 32 - 2 }
        ensures state { OnOk result (self.new.state ≡ hyper_next wheel.now self.old.state spoke.0) }
        ensures belongs { OnOk result (BelongsTo wheel.now self.new.state) }

        ensures longer { OnOk result (length self.new.state.word ≤ length self.old.state.word + 1) }
        ensures notes { OnOk result (TellsMore (LeadOn wheel.now self.old.state spoke.0)
            (R.noted recorder.old) (R.noted recorder.new)) }

        // Where memory runs out some of the steps may have been noted.
        ensures kept { TellsMore (λ _. ⊤) (R.noted recorder.old) (R.noted recorder.new) }

        // With room for one spoke, only the recorder can refuse.
        ensures sure { R.never_refuses → 1 ≤ self.old.spare → IsOk result }
        ensures spare { self.old.spare ≤ self.new.spare + 1 }
    {
        let degree = wheel.degree();
        let before = negative_modulo(degree, self.number);
        let turn = sum_modulo(degree, value_of(&self.word, wheel, spoke), before);
        let len = self.word.len();
        self.word.reserve(1)?;
        let put = put_uncounted::<Brand>(&mut self.word, degree, turn, Blank::new(1));
        note_rewrite(len, put.rewrite, recorder)?;
        let value = value_of(&self.word, wheel, spoke);
        self.number = sum_modulo(degree, value, negative_modulo(degree, put.change));
        Ok(())
    }

    fn same(&self, other: &Self) -> bool {
        self.number == other.number && self.word.same(&other.word)
    }
}

/// Puts a turn at the end of a canonical word, and does not tell how many steps that took.
#[inline(always)]
fn put_uncounted<L: Ledger>(word: &mut RunWord, degree: u32, turn: u32, blank: Blank) -> PutTurn
    requires name { blank.name ≡ L.name }
    requires parts { blank.parts ≡ L.parts }
    requires some { 0 < L.parts }
    requires degree { 5 ≤ degree }
    requires turn { turn < degree }
    requires in_range { All (λ entry. entry < degree) word.old.word }
    requires short { length word.old.word < 2 ^ 32 - 2 }
    requires room { length word.old.word + 2 ≤ word.old.room }
    ensures word { reverse word.new.word ≡ (put degree (reverse word.old.word) turn).word }
    ensures change { result.change ≡ (put degree (reverse word.old.word) turn).change }
    ensures stood { StoodIn (length word.old.word) result.rewrite }
    ensures rewrite { rewrite_steps (length word.old.word) result.rewrite
        ≡ put_steps degree (reverse word.old.word) turn }
    ensures room { word.new.room ≡ word.old.room }
    ensures longer { length word.new.word ≤ length word.old.word + 1 }
{
    let mut steps: Steps<L> = Steps::new(blank);
    put_turn(word, degree, turn, &mut steps)
}

/// Where the spoke comes after the path of a word: its place round the vertex, or its own number round the
/// middle.
fn value_of(word: &RunWord, wheel: &Wheel, spoke: Spoke) -> u32
    requires { spoke.0 < length wheel.now }
    ensures value { result ≡ value_at wheel.now word.now.word spoke.0 }
    ensures below { result < length wheel.now }
{
    if word.len() % 2 == 0 {
        wheel.place(spoke)
    } else {
        spoke.0
    }
}
