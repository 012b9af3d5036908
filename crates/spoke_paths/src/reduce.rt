//! A path of spokes is made short, spoke by spoke.
ghost use Rattle.std.specs.Prelude.{◌≡◌, ◌+◌, ◌-◌, ◌<◌, ◌≤◌, ◌^◌, ◌++◌, [], ◌∷◌, ℕ, List, All, length};
ghost use Rattle.std.specs.Prelude.{if◌then◌else◌, OnOk, IfOk};
ghost use Rattle.turn_words.specs.Modulo.{minus};
ghost use Rattle.turn_words.specs.Wheels.{IsWheel};
ghost use Rattle.turn_words.specs.SpokePaths.{turn_word_of};
ghost use Rattle.spoke_paths.specs.PathSteps.{PathLeads};
ghost use Rattle.spoke_paths.specs.PathTurns.{turn_of, Opens, EndsNothing, IsShort, HasQuads, IsBracketClosed, LeadsOn};
ghost use Rattle.spoke_paths.specs.ReducedWords.{IsReducedWord};

use crate::step::PathStep;
use crate::turn::{opening, turn_at, turn_over};
use std::alloc::{AllocError, Global};
use turn_words::Wheel;

/// The steps that lead from a path to a reduced one. Each is a spur taken out or one quad gone round the other way,
/// and none makes the path longer. Where the path leads to the state of the empty word the reduced one has no spokes.
pub fn reduce_spokes(
    alloc: Global,
    wheel: &Wheel,
    spokes: &[u32],
) -> Result<Vec<PathStep>, AllocError>
    requires quads { HasQuads wheel.now }
    requires below { All (λ spoke. spoke < length wheel.now) spokes.now }
    requires short { length spokes.now < 2 ^ 32 }
    ensures { IfOk result (λ steps. (end : List ℕ) × PathLeads wheel.now spokes.now steps.items end
        × IsReducedWord (length wheel.now) (turn_word_of wheel.now end)) }
{
    let mut steps = Vec::new(alloc);
    let mut front = Vec::new(alloc);
    for spoke in spokes {
        front.push(*spoke)?;
        shorten_end(wheel, &mut front, &mut steps)?;
    }
    Ok(steps)
}

/// Makes a path short where all of it but the turn of its last spoke is. Where memory runs out the path is of no
/// more use.
fn shorten_end(
    wheel: &Wheel,
    front: &mut Vec<u32>,
    steps: &mut Vec<PathStep>,
) -> Result<(), AllocError>
    requires quads { HasQuads wheel.now }
    requires below { All (λ spoke. spoke < length wheel.now) front.old.items }
    requires some { 1 ≤ length front.old.items }
    requires short { length front.old.items < 2 ^ 32 }
    requires before { (at : ℕ) → 1 ≤ at → at + 1 < length front.old.items → EndsNothing wheel.now front.old.items at }
    ensures below { OnOk result (All (λ spoke. spoke < length wheel.now) front.new.items) }
    ensures short { OnOk result (IsShort wheel.now front.new.items) }
    ensures longer { OnOk result (length front.new.items ≤ length front.old.items) }
    ensures leads { OnOk result (LeadsOn wheel.now steps.old.items front.old.items steps.new.items front.new.items) }
{
    let degree = wheel.degree();
    if front.len() < 2 {
        return Ok(());
    }
    let last = front.len() - 1;
    let turn = turn_at(wheel, front, last);
    if turn == 0 {
        steps.push(PathStep::Spur {
            at: (last - 1) as u32,
        })?;
        front.remove(last);
        front.remove(last - 1);
        return Ok(());
    }
    if turn == 1 {
        if let Some(start) = opening(wheel, front, 1, 2) {
            close(wheel, front, start, false, steps)?;
        }
    } else if turn == degree - 1 {
        if let Some(start) = opening(wheel, front, degree - 1, degree - 2) {
            close(wheel, front, start, true, steps)?;
        }
    }
    Ok(())
}

/// Closes the bracket that opens at a number and ends at the last spoke: the quads are gone round the other way from
/// the end on, and then the two spokes before the bracket are equal, and go. Where memory runs out the path is of no
/// more use.
fn close(
    wheel: &Wheel,
    front: &mut Vec<u32>,
    start: usize,
    up: bool,
    steps: &mut Vec<PathStep>,
) -> Result<(), AllocError>
    requires quads { HasQuads wheel.now }
    requires wheel { IsWheel wheel.now }
    requires below { All (λ spoke. spoke < length wheel.now) front.old.items }
    requires short { length front.old.items < 2 ^ 32 }
    requires opens { Opens wheel.now front.old.items (if up then minus (length wheel.now) 1 else 1)
        (if up then minus (length wheel.now) 2 else 2) start (length front.old.items - 1) }
    requires closes { turn_of wheel.now front.old.items (length front.old.items - 1)
        ≡ (if up then minus (length wheel.now) 1 else 1) }
    ensures below { OnOk result (All (λ spoke. spoke < length wheel.now) front.new.items) }
    ensures closed { OnOk result (IsBracketClosed wheel.now start (if up then 1 else minus (length wheel.now) 1)
        (if up then 2 else minus (length wheel.now) 2) front.old.items front.new.items) }
    ensures leads { OnOk result (LeadsOn wheel.now steps.old.items front.old.items steps.new.items front.new.items) }
{
    let mut at = front.len() - 1;
    while at > start {
        at -= 1;
        let step = turn_over(wheel, front, at, up);
        steps.push(step)?;
    }
    steps.push(PathStep::Spur {
        at: (start - 1) as u32,
    })?;
    front.remove(start);
    front.remove(start - 1);
    Ok(())
}
