//! A closed list of spokes while it is worked on. All work is done at the seam, between the last spoke and the first.
ghost use Rattle.std.specs.Prelude.{◌≡◌, ◌≢◌, ℕ, ◌+◌, ◌-◌, ◌<◌, ◌≤◌, ◌%◌, ◌↔◌, ◌++◌, ◌∷◌, [], not, true, if◌then◌else◌, List, length, slice_index, take, drop, IsTrue, IfOk, OnOk};
ghost use Rattle.turn_words.specs.Modulo.{add, minus};
ghost use Rattle.turn_words.specs.SpokePaths.{place_round};
ghost use Rattle.spoke_rings.specs.CyclicWords.{stands_before, IsLoop, IsFullWheel};
ghost use Rattle.spoke_rings.specs.Private.Rings.{ring_turn, one_on, RingLeads, Pushes, Rises, Shortens, IsBracket, IsFineRing, TurnsOver};
ghost use Rattle.spoke_rings.specs.Private.Seams.{IsSeam};

use std::alloc::{AllocError, Global};
use std::collections::VecDeque;
use std::marker::Model;
use turn_words::Wheel;

/// A closed list of spokes, which may start anywhere. It is seen as the list of its spokes from the seam on, and whether
/// the path stands at the vertex there.
#[derive(Debug, Drop)]
pub(crate) struct Ring {
    spokes: VecDeque<u32>,
    at_vertex: bool,
}

/// What stands at the seam of a ring.
#[derive(Clone, Copy, Debug)]
pub(crate) enum Seam {
    /// A turn 0: two equal spokes.
    Spur,
    /// A turn -1.
    Fall,
    /// A turn 1 that ends a bracket, with so many turns 2 before it.
    Bracket { twos: usize },
    /// None of these.
    Fine,
}

impl Model for Ring {
    ghost use Rattle.spoke_rings.specs.Private.Rings.{SpokeRingView};

    ghost Value = { SpokeRingView };

    ghost view = { λ ring. record { spokes = ring.spokes.items; at_vertex = ring.at_vertex } };
}

impl Ring {
    /// The ring of a closed list that starts at the vertex.
    pub(crate) fn new(alloc: Global, spokes: &[u32]) -> Result<Ring, AllocError>
        ensures spokes { IfOk result (λ ring. ring.spokes ≡ spokes.now) }
        ensures at_vertex { IfOk result (λ ring. ring.at_vertex ≡ true) }
    {
        let spokes = VecDeque::from_vec(Vec::from_slice(alloc, spokes)?);
        Ok(Ring {
            spokes,
            at_vertex: true,
        })
    }

    /// The spokes from the seam on.
    pub(crate) fn into_spokes(self, alloc: Global) -> Result<Vec<u32>, AllocError>
        ensures { IfOk result (λ spokes. spokes.items ≡ self.spokes) }
    {
        self.spokes.iter().copied().collect(alloc)
    }

    /// How many spokes there are.
    pub(crate) fn len(&self) -> usize
        ensures { result ≡ length self.now.spokes }
    {
        self.spokes.len()
    }

    /// Takes the first spoke to the end.
    pub(crate) fn forward(&mut self)
        requires { 0 < length self.old.spokes }
        ensures spokes { self.new.spokes ≡ drop 1 self.old.spokes ++ take 1 self.old.spokes }
        ensures at_vertex { self.new.at_vertex ≡ not self.old.at_vertex }
    {
        self.spokes.rotate_left(1);
        self.at_vertex = !self.at_vertex;
    }

    /// Takes the last spoke to the front.
    pub(crate) fn back(&mut self)
        requires { 0 < length self.old.spokes }
        ensures spokes { self.new.spokes ≡ drop (length self.old.spokes - 1) self.old.spokes
            ++ take (length self.old.spokes - 1) self.old.spokes }
        ensures at_vertex { self.new.at_vertex ≡ not self.old.at_vertex }
    {
        self.spokes.rotate_right(1);
        self.at_vertex = !self.at_vertex;
    }

    /// The turn at a place, counted from the seam: that of its spoke against the spoke before.
    pub(crate) fn turn(&self, wheel: &Wheel, at: usize) -> u32
        requires spokes { IsLoop wheel.now self.now.spokes }
        requires at { at < length self.now.spokes }
        ensures turn { result ≡ ring_turn wheel.now self.now at }
    {
        if at == 0 {
            let end = self.spokes.len() - 1;
            return turn_between(wheel, self.at_vertex, self.spokes[end], self.spokes[0]);
        }
        let stands = self.stands_before(at);
        turn_between(wheel, stands, self.spokes[at - 1], self.spokes[at])
    }

    /// Tells whether the path stands at the vertex before a spoke.
    fn stands_before(&self, at: usize) -> bool
        ensures { result ≡ stands_before self.now.at_vertex at }
    {
        if at % 2 == 0 {
            self.at_vertex
        } else {
            !self.at_vertex
        }
    }

    /// Takes the path across the quad at the seam: up, where the turn there is -1, or down, where it is 1.
    pub(crate) fn push(&mut self, wheel: &Wheel, up: bool)
        requires degree { 5 ≤ length wheel.now }
        requires spokes { IsLoop wheel.now self.old.spokes }
        requires some { 2 ≤ length self.old.spokes }
        ensures { Pushes wheel.now up self.old self.new }
    {
        let end = self.spokes.len() - 1;
        let middle = !self.at_vertex;
        let last = moved(wheel, middle, self.spokes[end], one_on(wheel, up));
        let first = moved(wheel, middle, self.spokes[0], one_on(wheel, !up));
        self.spokes[end] = last;
        self.spokes[0] = first;
    }

    /// Tells what stands at the seam.
    pub(crate) fn look(&self, wheel: &Wheel) -> Seam
        requires degree { 5 ≤ length wheel.now }
        requires spokes { IsLoop wheel.now self.now.spokes }
        requires some { 2 ≤ length self.now.spokes }
        ensures { IsSeam (length wheel.now) (length self.now.spokes) (ring_turn wheel.now self.now) result }
    {
        let turn = self.turn(wheel, 0);
        if turn == 0 {
            Seam::Spur
        } else if turn == wheel.degree() - 1 {
            Seam::Fall
        } else if turn == 1 {
            self.bracket(wheel)
        } else {
            Seam::Fine
        }
    }

    /// Looks back from a turn 1 at the seam for the turn 1 that opens a bracket.
    fn bracket(&self, wheel: &Wheel) -> Seam
        requires degree { 5 ≤ length wheel.now }
        requires spokes { IsLoop wheel.now self.now.spokes }
        requires some { 2 ≤ length self.now.spokes }
        requires one { ring_turn wheel.now self.now 0 ≡ 1 }
        ensures { IsSeam (length wheel.now) (length self.now.spokes) (ring_turn wheel.now self.now) result }
    {
        let len = self.len();
        let mut twos = 0;
        while twos + 1 < len && self.turn(wheel, len - 1 - twos) == 2 {
            twos += 1;
        }
        if twos + 1 == len {
            return Seam::Bracket { twos };
        }
        let opening = self.turn(wheel, len - 1 - twos);
        if opening == 1 && twos + 3 <= len {
            Seam::Bracket { twos }
        } else {
            Seam::Fine
        }
    }

    /// Pushes a turn -1 at the seam up, and goes on to a neighbour that is -1 now, if one is. So no bracket is looked for
    /// at the turn 1 that was made, where the next push changes it again.
    pub(crate) fn rise(&mut self, wheel: &Wheel)
        requires full { IsFullWheel wheel.now }
        requires spokes { IsLoop wheel.now self.old.spokes }
        requires some { 2 ≤ length self.old.spokes }
        requires fall { ring_turn wheel.now self.old 0 ≡ minus (length wheel.now) 1 }
        ensures { Rises wheel.now self.old self.new }
    {
        self.push(wheel, true);
        let fall = wheel.degree() - 1;
        let end = self.spokes.len() - 1;
        if self.turn(wheel, end) == fall {
            self.back();
            return;
        }
        if self.turn(wheel, 1) == fall {
            self.forward();
        }
    }

    /// Closes the bracket that ends at the seam: it is pushed down turn by turn, from its end back to its begin, where a
    /// spur is left, which goes.
    pub(crate) fn close(&mut self, wheel: &Wheel, twos: usize)
        requires full { IsFullWheel wheel.now }
        requires spokes { IsLoop wheel.now self.old.spokes }
        requires some { 2 ≤ length self.old.spokes }
        requires one { ring_turn wheel.now self.old 0 ≡ 1 }
        requires bracket { IsBracket (length self.old.spokes) (ring_turn wheel.now self.old) twos }
        ensures { Shortens wheel.now self.old self.new }
    {
        let len = self.len();
        let mut pushes = if twos + 1 == len { twos } else { twos + 1 };
        while pushes > 0 {
            self.push(wheel, false);
            self.back();
            pushes -= 1;
        }
        self.take_out();
    }

    /// Works at the seam until nothing is left at any of them to be taken out, pushed up or closed.
    pub(crate) fn reduce(&mut self, wheel: &Wheel)
        requires full { IsFullWheel wheel.now }
        requires spokes { IsLoop wheel.now self.old.spokes }
        ensures acts { RingLeads wheel.now self.old self.new }
        ensures not_longer { length self.new.spokes ≤ length self.old.spokes }
        ensures fine { IsFineRing wheel.now self.new }
    {
        let mut passed = 0;
        while passed < self.len() {
            match self.look(wheel) {
                Seam::Spur => {
                    self.take_out();
                    passed = 0;
                }
                Seam::Fall => {
                    self.rise(wheel);
                    passed = 0;
                }
                Seam::Bracket { twos } => {
                    self.close(wheel, twos);
                    passed = 0;
                }
                Seam::Fine => {
                    self.forward();
                    passed += 1;
                }
            }
        }
    }

    /// Takes a ring with turns -2 alone across all the quads beside it. A spur is put in at the seam, and pushed round
    /// until it goes again; then all turns are 2. Where memory runs out the ring is of no more use.
    pub(crate) fn turn_over(&mut self, wheel: &Wheel) -> Result<(), AllocError>
        requires full { IsFullWheel wheel.now }
        requires spokes { IsLoop wheel.now self.old.spokes }
        requires some { 2 ≤ length self.old.spokes }
        requires vertex { self.old.at_vertex ≡ true }
        requires falls { (k : ℕ) → ring_turn wheel.now self.old k ≡ minus (length wheel.now) 2 }
        ensures { OnOk result (TurnsOver wheel.now self.old self.new) }
    {
        let len = self.len();
        let spoke = moved(wheel, true, self.first(), 1);
        self.put_twice(spoke)?;
        let mut left = len;
        while left > 0 {
            self.push(wheel, true);
            self.forward();
            left -= 1;
        }
        self.take_out();
        Ok(())
    }

    /// The spoke behind the seam.
    fn first(&self) -> u32
        requires { 0 < length self.now.spokes }
        ensures { result ≡ slice_index self.now.spokes 0 }
    {
        self.spokes[0]
    }

    /// Puts a spoke in twice before the seam. Where memory runs out the ring is of no more use.
    fn put_twice(&mut self, spoke: u32) -> Result<(), AllocError>
        ensures spokes { OnOk result (self.new.spokes ≡ self.old.spokes ++ spoke ∷ spoke ∷ []) }
        ensures at_vertex { OnOk result (self.new.at_vertex ≡ self.old.at_vertex) }
    {
        self.spokes.push_back(spoke)?;
        self.spokes.push_back(spoke)?;
        Ok(())
    }

    /// Tells whether all turns are -2.
    pub(crate) fn all_fall(&self, wheel: &Wheel) -> bool
        requires degree { 5 ≤ length wheel.now }
        requires spokes { IsLoop wheel.now self.now.spokes }
        ensures { IsTrue result ↔ ((k : ℕ) → k < length self.now.spokes →
            ring_turn wheel.now self.now k ≡ minus (length wheel.now) 2) }
    {
        let fall = wheel.degree() - 2;
        for at in 0..self.len() {
            if self.turn(wheel, at) != fall {
                return false;
            }
        }
        true
    }

    /// Goes on to a seam at the vertex.
    pub(crate) fn to_vertex(&mut self)
        ensures spokes { self.new.spokes ≡ (if self.old.at_vertex then self.old.spokes
            else drop 1 self.old.spokes ++ take 1 self.old.spokes) }
        ensures at_vertex { self.new.at_vertex ≡ true }
    {
        if !self.at_vertex {
            if !self.spokes.is_empty() {
                self.spokes.rotate_left(1);
            }
            self.at_vertex = true;
        }
    }

    /// Takes out the first spoke and the last.
    pub(crate) fn take_out(&mut self)
        requires { 2 ≤ length self.old.spokes }
        ensures spokes { self.old.spokes ≡ slice_index self.old.spokes 0 ∷ self.new.spokes
            ++ slice_index self.old.spokes (length self.old.spokes - 1) ∷ [] }
        ensures at_vertex { self.new.at_vertex ≡ not self.old.at_vertex }
    {
        let _ = self.spokes.pop_front();
        let _ = self.spokes.pop_back();
        self.at_vertex = !self.at_vertex;
    }
}

/// One place on, or one place back.
fn one_on(wheel: &Wheel, up: bool) -> u32
    requires { 5 ≤ length wheel.now }
    ensures on { result ≡ one_on (length wheel.now) up }
    ensures below { result < length wheel.now }
{
    if up { 1 } else { wheel.degree() - 1 }
}

/// The turn of a spoke against another one, round the vertex or round the middle.
fn turn_between(wheel: &Wheel, at_vertex: bool, before: u32, spoke: u32) -> u32
    requires before { before < length wheel.now }
    requires spoke { spoke < length wheel.now }
    ensures { result ≡ add (length wheel.now) (place_round wheel.now at_vertex spoke)
        (minus (length wheel.now) (place_round wheel.now at_vertex before)) }
{
    let from = wheel.place_round(at_vertex, before);
    let to = wheel.place_round(at_vertex, spoke);
    if from <= to {
        to - from
    } else {
        wheel.degree() - from + to
    }
}

/// The spoke that comes so many places behind a spoke.
fn moved(wheel: &Wheel, at_vertex: bool, spoke: u32, by: u32) -> u32
    requires spoke { spoke < length wheel.now }
    requires by { by < length wheel.now }
    ensures below { result < length wheel.now }
    ensures place { place_round wheel.now at_vertex result ≡ add (length wheel.now) (place_round wheel.now at_vertex spoke) by }
{
    let place = wheel.place_round(at_vertex, spoke);
    let room = wheel.degree() - by;
    let behind = if place < room {
        place + by
    } else {
        place - room
    };
    wheel.spoke_round(at_vertex, behind)
}
