//! How a word is rewritten, step by step, what comes where a note of that is refused, and the stack of runs.
ghost use Rattle.std.specs.Prelude.{◌≡◌, ◌<◌};
ghost use Rattle.turn_words.specs.HyperStates.{empty_state};

use std::alloc::{AllocError, Global};
use std::marker::Brand;
use std::process::Abort;
use std::sync::ledger::{Blank, Ledger};
use std::test::Fail;
use surf_model::Spoke;
use turn_words::{Form, Hyper, Kept, Recorder, RunStack, Silent, Step, Steps, TurnWord, Wheel};

/// Over the degree 8 the spokes 0 and 7 make the turns 0 7, which a push makes 1 1.
#[test]
fn a_step_is_kept(rt: HostRuntime) -> Result<(), Fail> {
    let wheel = Wheel::build(rt.alloc(), &[0, 1, 2, 3, 4, 5, 6, 7])?;
    let mut kept = Kept::new(rt.alloc());
    let mut form = Hyper::new(rt.alloc());
    assert_eq!(rt; wheel.degree(), 8);
    form.act(&wheel, Spoke(0), &mut kept)?;
    form.act(&wheel, Spoke(7), &mut kept)?;
    assert!(rt; kept.steps() == [Step::Push { at: 0, up: true }].as_slice());
    Ok(())
}

/// Keeps no note, and refuses the one with a number.
#[derive(Drop)]
struct Refusing {
    notes: u64,
    refused: u64,
}

impl Recorder for Refusing {
    ghost use Rattle.std.specs.Prelude.{None};

    ghost noted = { λ _. None };

    ghost never_refuses = { ⊥ };

    fn note(&mut self, _step: Step) -> Result<(), AllocError> {
        self.notes = self.notes.saturating_add(1);
        if self.notes == self.refused {
            return Err(AllocError);
        }
        Ok(())
    }
}

/// Spokes of the wheel of degree 8 whose places are in order, the canonical word of their path, and how many steps lead to it: a spur
/// takes one, the turn -1 behind k turns -2 a push more than k, and the turn 1 behind 1 and k turns 2 as many and a spur.
const PATHS: [(&[u32], &[u32], u64); 4] = [
    (&[4, 7, 0, 2, 3, 0], &[4, 2, 6, 4], 3),
    (&[4, 6, 4, 0], &[4, 2, 6, 4], 0),
    (&[3, 5, 5, 1], &[3, 6], 1),
    (&[3, 4, 5, 5], &[3, 1], 3),
];

/// Each note is refused in turn, until none is; the form is restarted, and the same spokes then make their word.
#[test]
fn notes_are_refused(rt: HostRuntime) -> Result<(), Fail> {
    let wheel = Wheel::build(rt.alloc(), &[0, 1, 2, 3, 4, 5, 6, 7])?;
    for (spokes, word, steps) in &PATHS {
        let mut form = Hyper::new(rt.alloc());
        for refused in 1..=*steps + 1 {
            form.restart();
            let mut recorder = Refusing { notes: 0, refused };
            let put = put_spokes(&rt, &mut form, &wheel, *spokes, &mut recorder);
            assert!(rt;
                put.is_ok() == (refused > *steps),
                "{spokes:?}, note {refused}"
            );
            form.restart();
            put_spokes(&rt, &mut form, &wheel, *spokes, &mut Silent)?;
            assert!(rt;
                is_word(&form.word(rt.alloc())?, *word),
                "{spokes:?}, note {refused}"
            );
        }
    }
    Ok(())
}

/// Puts spokes into a form that has none.
fn put_spokes<R: Recorder>(
    rt: &impl Abort,
    form: &mut Hyper,
    wheel: &Wheel,
    spokes: &[u32],
    recorder: &mut R,
) -> Result<(), AllocError>
    requires empty { form.old.state ≡ empty_state }
{
    assert!(rt; wheel.degree() >= 5 && spokes.len() < 10);
    for at in 0..spokes.len() {
        assert!(rt; spokes[at] < wheel.degree());
        form.act(wheel, Spoke(spokes[at]), recorder)?;
    }
    Ok(())
}

/// Whether a word has these entries.
fn is_word(word: &TurnWord, entries: &[u32]) -> bool {
    for at in 0..word.len() {
        if entries.get(at as usize) != Some(&word.at(at)) {
            return false;
        }
    }
    word.len() as usize == entries.len()
}

/// Equal turns in a row are one run: the turn -1 behind four turns -2 makes a turn 1 and four turns 2.
#[test]
fn equal_turns_are_one_run(rt: HostRuntime) -> Result<(), Fail> {
    let wheel = Wheel::build(rt.alloc(), &[0, 1, 2, 3, 4, 5, 6, 7])?;
    let mut form = Hyper::new(rt.alloc());
    put_spokes(&rt, &mut form, &wheel, &[0, 6, 4, 2, 0], &mut Silent)?;
    assert_eq!(rt; form.runs().len(), 1);
    form.restart();
    put_spokes(&rt, &mut form, &wheel, &[0, 6, 4, 2, 0, 7], &mut Silent)?;
    assert!(rt; is_word(&form.word(rt.alloc())?, &[1, 1, 2, 2, 2, 2]));
    assert_eq!(rt; form.runs().len(), 2);
    Ok(())
}

#[test]
fn runs_are_pushed(rt: HostRuntime) -> Result<(), Fail> {
    push_runs::<Brand>(&rt, rt.alloc(), Blank::new(1))?;
    Ok(())
}

/// Pushes two runs, which then come off from the top.
fn push_runs<L: Ledger>(rt: &impl Abort, alloc: Global, blank: Blank) -> Result<(), AllocError>
    requires name { blank.name ≡ L.name }
    requires parts { blank.parts ≡ L.parts }
    requires some { 0 < L.parts }
{
    let mut steps: Steps<L> = Steps::new(blank);
    let mut stack = RunStack::new(alloc);
    stack.push(5, 2, &mut steps)?;
    stack.push(3, 1, &mut steps)?;
    assert_eq!(rt; stack.len(), 2);
    assert_eq!(rt; stack.pop(&mut steps), Some((3, 1)));
    assert_eq!(rt; stack.pop(&mut steps), Some((5, 2)));
    assert_eq!(rt; stack.pop(&mut steps), None);
    Ok(())
}
