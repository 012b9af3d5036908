//! What two walks begin with and end with, taken off and put back.
ghost use Rattle.std.specs.Prelude.{◌≡◌, ◌+◌, ◌-◌, ◌<◌, ◌≤◌, ◌^◌, take, drop, All, IfOk};
ghost use Rattle.surf_model.specs.Replacements.{place_of_move};
ghost use Rattle.surf_model.specs.Walks.{HaveCommonEnds, darts};
ghost use Rattle.surf_model.specs.declared.moves.Move.{Move};
ghost use Rattle.common_ends.specs.Trimmed.{AreCommonDarts, between, put_around, DifferBehind, DifferBefore};

use crate::raising::raise_moves;
use std::alloc::{AllocError, Global};
use surf_model::{MoveList, Walk};

/// How many darts two walks begin with together, and how many of the others they end with together.
#[derive(Clone, Copy)]
pub struct CommonDarts {
    pub front: u32,
    pub back: u32,
}

impl CommonDarts {
    /// The common darts of two walks with common ends, as many as there are.
    pub fn of(first: &Walk, second: &Walk) -> CommonDarts
        requires { HaveCommonEnds first.now second.now }
        ensures { AreCommonDarts first.now second.now result }
    {
        let front = common_front(first, second);
        let back = common_back(first, second, front);
        CommonDarts { front, back }
    }

    /// What is left of a walk when the common darts are taken off.
    pub fn between(self, alloc: Global, walk: &Walk) -> Result<Walk, AllocError>
        requires { self.front + self.back ≤ darts walk.now }
        ensures { IfOk result (λ part. part ≡ between self.front self.back walk.now) }
    {
        let darts = walk.darts() - self.front - self.back;
        let mut part = Walk::new(alloc, walk.at(self.front))?;
        for done in 0..darts {
            part.push(walk.at(self.front + done + 1))?;
        }
        Ok(part)
    }

    /// The moves of a list where the common darts stand around the walk again.
    pub fn put_back(self, alloc: Global, list: MoveList) -> Result<MoveList, AllocError>
        requires places { All (λ (mv : Move). place_of_move mv ≤ list.peak) list.moves }
        requires room { self.front + self.back + list.peak < 2 ^ 32 }
        ensures { IfOk result (λ whole. whole ≡ put_around self list) }
    {
        if self.front == 0 && self.back == 0 {
            return Ok(list);
        }
        let around = self.front + self.back;
        let mut whole = MoveList::new(alloc, around + list.peak());
        raise_moves(&mut whole, &list, self.front, around)?;
        Ok(whole)
    }
}

/// How many darts two walks from one vertex begin with together.
fn common_front(first: &Walk, second: &Walk) -> u32
    requires { HaveCommonEnds first.now second.now }
    ensures in_first { result ≤ darts first.now }
    ensures in_second { result ≤ darts second.now }
    ensures same { take (result + 1) first.now ≡ take (result + 1) second.now }
    ensures most { DifferBehind first.now second.now result }
{
    let most = first.darts().min(second.darts());
    for front in 0..most {
        if first.at(front + 1) != second.at(front + 1) {
            return front;
        }
    }
    most
}

/// How many darts two walks to one vertex end with together, beside so many that they begin with.
fn common_back(first: &Walk, second: &Walk, front: u32) -> u32
    requires ends { HaveCommonEnds first.now second.now }
    requires first { front ≤ darts first.now }
    requires second { front ≤ darts second.now }
    ensures in_first { front + result ≤ darts first.now }
    ensures in_second { front + result ≤ darts second.now }
    ensures same { drop (darts first.now - result) first.now ≡ drop (darts second.now - result) second.now }
    ensures most { DifferBefore first.now second.now front result }
{
    let in_first = first.darts() - front;
    let in_second = second.darts() - front;
    let most = in_first.min(in_second);
    for back in 0..most {
        if first.at(first.darts() - back - 1) != second.at(second.darts() - back - 1) {
            return back;
        }
    }
    most
}
