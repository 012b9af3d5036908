//! A turn put at the end of a canonical word. All of it becomes part of the caller's loop, in which the number
//! of the runs then need not go through memory.
ghost use Rattle.std.specs.Prelude.{◌≡◌, ◌+◌, ◌-◌, ◌^◌, ◌<◌, ◌≤◌, true, All, length, reverse};
ghost use Rattle.turn_words.specs.Modulo.{minus};
ghost use Rattle.turn_words.specs.PutTurns.{is_open, flipped, closed, put};
ghost use Rattle.turn_words.specs.Private.PutSteps.{flip_steps, close_steps, put_steps, rewrite_steps, StoodIn};
ghost use Rattle.turn_words.specs.declared.put.Rewrite.TheVariants.{Flip, Close};

use crate::counter::Steps;
use crate::modulo::negative_modulo;
use crate::run_word::RunWord;
use std::sync::ledger::Ledger;

/// How a word was rewritten where a turn was put at its end.
#[derive(Clone, Copy, Debug, PartialEq, Eq)]
pub(crate) enum Rewrite {
    /// The turn stands at the end.
    Plain,
    /// The last entry went, and the turn with it.
    Spur,
    /// `x (-2)^k` and the turn -1 became `(x + 1) 1 2^k`. It tells `k`.
    Flip(u32),
    /// `x 1 2^k` and the turn 1 became `(x - 1) (-2)^k`. It tells `k`.
    Close(u32),
}

/// What was done where a turn was put at the end of a word.
#[derive(Clone, Copy, Debug)]
pub(crate) struct PutTurn {
    /// The number by which the turn that comes next is changed.
    pub(crate) change: u32,
    pub(crate) rewrite: Rewrite,
}

/// Puts a turn at the end of a canonical word, with room for one entry more and for one run beside it. It takes 8
/// steps at most.
#[inline(always)]
pub(crate) fn put_turn<L: Ledger>(
    word: &mut RunWord,
    degree: u32,
    turn: u32,
    steps: &mut Steps<L>,
) -> PutTurn
    requires degree { 5 ≤ degree }
    requires turn { turn < degree }
    requires in_range { All (λ entry. entry < degree) word.old.word }
    requires short { length word.old.word < 2 ^ 32 - 2 }
    requires room { length word.old.word + 2 ≤ word.old.room }
    ensures word { reverse word.new.word ≡ (put degree (reverse word.old.word) turn).word }
    ensures change { result.change ≡ (put degree (reverse word.old.word) turn).change }
    ensures stood { StoodIn (length word.old.word) result.rewrite }
    ensures rewrite { rewrite_steps (length word.old.word) result.rewrite
        ≡ put_steps degree (reverse word.old.word) turn }
    ensures room { word.new.room ≡ word.old.room }
    ensures longer { length word.new.word ≤ length word.old.word + 1 }
    ensures counted { steps.new ≤ steps.old + 8 }
{
    if word.len() == 0 {
        word.begin(turn);
        PutTurn {
            change: 0,
            rewrite: Rewrite::Plain,
        }
    } else if turn == 0 {
        PutTurn {
            change: word.pop(steps),
            rewrite: Rewrite::Spur,
        }
    } else if turn == negative_modulo(degree, 1) {
        PutTurn {
            change: 1,
            rewrite: Rewrite::Flip(flip(word, degree, steps)),
        }
    } else if turn == 1 && word.is_open() {
        PutTurn {
            change: negative_modulo(degree, 1),
            rewrite: Rewrite::Close(close(word, degree, steps)),
        }
    } else {
        word.push_run(turn, 1, steps);
        PutTurn {
            change: 0,
            rewrite: Rewrite::Plain,
        }
    }
}

/// Writes `x (-2)^k` at the end, the run of turns taken whole, as `(x + 1) 1 2^k`, and tells `k`.
#[inline(always)]
fn flip<L: Ledger>(word: &mut RunWord, degree: u32, steps: &mut Steps<L>) -> u32
    requires degree { 5 ≤ degree }
    requires in_range { All (λ entry. entry < degree) word.old.word }
    requires some { 0 < length word.old.word }
    requires short { length word.old.word < 2 ^ 32 - 2 }
    requires room { length word.old.runs + 2 ≤ word.old.room }
    ensures word { reverse word.new.word ≡ flipped degree (reverse word.old.word) }
    ensures stood { StoodIn (length word.old.word) (Flip result) }
    ensures rewrite { rewrite_steps (length word.old.word) (Flip result) ≡ flip_steps degree (reverse word.old.word) }
    ensures room { word.new.room ≡ word.old.room }
    ensures longer { length word.new.word ≤ length word.old.word + 1 }
    ensures counted { steps.new ≤ steps.old + 8 }
{
    let twos = word.take_run(negative_modulo(degree, 2), steps);
    word.change_last(degree, 1, steps);
    word.push_run(1, 1, steps);
    word.push_run(2, twos, steps);
    twos
}

/// Writes `x 1 2^k` at the end as `(x - 1) (-2)^k`, and tells `k`.
#[inline(always)]
fn close<L: Ledger>(word: &mut RunWord, degree: u32, steps: &mut Steps<L>) -> u32
    requires degree { 5 ≤ degree }
    requires in_range { All (λ entry. entry < degree) word.old.word }
    requires open { is_open (reverse word.old.word) ≡ true }
    requires short { length word.old.word < 2 ^ 32 - 2 }
    requires room { length word.old.runs + 2 ≤ word.old.room }
    ensures word { reverse word.new.word ≡ closed degree (reverse word.old.word) }
    ensures stood { StoodIn (length word.old.word) (Close result) }
    ensures rewrite { rewrite_steps (length word.old.word) (Close result) ≡ close_steps (reverse word.old.word) }
    ensures room { word.new.room ≡ word.old.room }
    ensures longer { length word.new.word ≤ length word.old.word + 1 }
    ensures counted { steps.new ≤ steps.old + 8 }
{
    let twos = word.take_run(2, steps);
    word.pop(steps);
    word.change_last(degree, negative_modulo(degree, 1), steps);
    word.push_run(negative_modulo(degree, 2), twos, steps);
    twos
}
