//! A row of chains in one pool: the segments of one list.
ghost use Rattle.std.specs.Prelude.{◌≡◌, ◌≢◌, ◌+◌, ◌-◌, ◌<◌, ◌≤◌, ◌^◌, ◌++◌, ◌∷◌, ℕ, [], length, reverse, take, drop, slice_set, slice_index, Some, None, IfOk};
ghost use Rattle.std.specs.List.{concat};
ghost use Rattle.chain_pool.specs.Chains.{under, IsLive, list_of, inserted, cut};

use chain_pool::{CellName, Halves, Pool};
use std::alloc::{AllocError, Global};
use std::marker::Model;

/// A chain, and the number of its entries.
#[derive(Clone, Copy)]
pub struct Segment {
    pub chain: CellName,
    pub len: u32,
}

/// A segment by its number, and how many entries lie before it.
#[derive(Clone, Copy)]
pub struct Mark {
    pub index: usize,
    pub start: u32,
}

/// Chains in a row, whose lists one after the other are one list.
#[derive(Drop)]
pub struct Segments {
    pool: Pool,
    row: Vec<Segment>,
}

impl Model for Segments {
    ghost use Rattle.segmented_pool.specs.Segments.{Parts, lists_of, AreSegments};

    ghost Value = { Parts };

    ghost view = { λ a. record { parts = lists_of a.pool.lists a.row.items; spare = a.pool.spare } };

    ghost invariant = { λ a. AreSegments a.pool.lists a.row.items (lists_of a.pool.lists a.row.items) };
}

impl Segments {
    ghost use Rattle.segmented_pool.specs.Segments.{part, IsMark, IsInSegment};

    /// One segment with no entries, room for so many cells more, and for so many segments. The error is that there is no
    /// memory for them.
    pub fn start(alloc: Global, spare: u32, most: u32) -> Result<Segments, AllocError>
        requires few { spare + 1 < 2 ^ 32 }
        requires some { 0 < most }
        ensures parts { IfOk result (λ segments. segments.parts ≡ [] ∷ []) }
        ensures spare { IfOk result (λ segments. segments.spare ≡ spare) }
    {
        let mut row = Vec::with_capacity(alloc, most as usize)?;
        let mut pool = Pool::new(alloc);
        pool.reserve(spare + 1)?;
        let chain = pool.start_chain();
        row.push_reserved(Segment { chain, len: 0 });
        Ok(Segments { pool, row })
    }

    /// The number of cells that can be taken with no memory.
    pub fn spare(&self) -> u32
        ensures { result ≡ self.now.spare }
    {
        self.pool.spare()
    }

    /// The number of segments.
    pub fn count(&self) -> usize
        ensures { result ≡ length self.now.parts }
    {
        self.row.len()
    }

    /// The number of entries of a segment.
    #[inline(always)]
    pub fn len(&self, index: usize) -> u32
        requires { index < length self.now.parts }
        ensures { result ≡ length (part self.now.parts index) }
    {
        self.row[index].len
    }

    /// Both sides of a segment's remembered place.
    pub fn halves(&self, index: usize) -> Halves<'_>
        requires { index < length self.now.parts }
        ensures { reverse result.before ++ result.behind ≡ part self.now.parts index }
    {
        self.pool.halves(self.row[index].chain)
    }

    /// An entry of a segment.
    pub fn at(&self, index: usize, place: u32) -> u32
        requires index { index < length self.now.parts }
        requires place { place < length (part self.now.parts index) }
        ensures { result ≡ slice_index (part self.now.parts index) place }
    {
        self.pool.at(self.row[index].chain, place)
    }

    /// An entry of a segment, whose place becomes the remembered one.
    pub fn entry(&mut self, index: usize, place: u32) -> u32
        requires index { index < length self.old.parts }
        requires place { place < length (part self.old.parts index) }
        ensures value { result ≡ slice_index (part self.old.parts index) place }
        ensures same { self.new ≡ self.old }
    {
        self.pool.entry(self.row[index].chain, place)
    }

    /// The value becomes entry `place` of a segment.
    pub fn push_after(&mut self, index: usize, place: u32, value: u32)
        requires index { index < length self.old.parts }
        requires place { place ≤ length (part self.old.parts index) }
        requires spare { 0 < self.old.spare }
        requires few { length (part self.old.parts index) + 1 < 2 ^ 32 }
        ensures parts { self.new.parts ≡ slice_set self.old.parts index (inserted (part self.old.parts index) place value) }
        ensures spare { self.new.spare + 1 ≡ self.old.spare }
    {
        let segment = &mut self.row[index];
        self.pool.push_after(segment.chain, place, value);
        segment.len += 1;
    }

    /// The entries of a segment from place `from` up to `to`, without `to`, go.
    pub fn cut_between(&mut self, index: usize, from: u32, to: u32)
        requires index { index < length self.old.parts }
        requires order { from ≤ to }
        requires place { to ≤ length (part self.old.parts index) }
        ensures parts { self.new.parts ≡ slice_set self.old.parts index (cut (part self.old.parts index) from to) }
        ensures spare { self.new.spare + from ≡ self.old.spare + to }
    {
        let segment = &mut self.row[index];
        self.pool.cut_between(segment.chain, from, to);
        segment.len -= to - from;
    }

    /// The entries of a segment from a place on become the segment behind it, where there is room for one more. It costs
    /// these entries.
    #[inline(never)]
    pub fn split(&mut self, index: usize, place: u32)
        requires index { index < length self.old.parts }
        requires place { place ≤ length (part self.old.parts index) }
        requires spare { 0 < self.old.spare }
        ensures joined { concat self.new.parts ≡ concat self.old.parts }
        ensures before { take index self.new.parts ≡ take index self.old.parts }
        ensures count { index < length self.new.parts }
        ensures spare { self.old.spare ≤ self.new.spare + 1 }
    {
        if self.row.len() >= self.row.capacity() {
            return;
        }
        let segment = self.row[index];
        let chain = take_off(&mut self.pool, segment.chain, place);
        self.row[index] = Segment {
            len: place,
            ..segment
        };
        let other = Segment {
            chain,
            len: segment.len - place,
        };
        // There is room: this takes no memory.
        let _ = self.row.insert(index + 1, other);
    }

    /// The segment behind another is joined to it. It costs its entries.
    pub fn join(&mut self, index: usize)
        requires index { index + 1 < length self.old.parts }
        requires few { length (part self.old.parts index) + length (part self.old.parts (index + 1)) < 2 ^ 32 }
        ensures joined { concat self.new.parts ≡ concat self.old.parts }
        ensures before { take index self.new.parts ≡ take index self.old.parts }
        ensures count { index < length self.new.parts }
        ensures spare { self.new.spare ≡ self.old.spare + 1 }
    {
        let segment = self.row[index];
        let other = self.row.remove(index + 1);
        self.pool.splice(segment.chain, segment.len, other.chain);
        self.row[index] = Segment {
            len: segment.len + other.len,
            ..segment
        };
    }

    /// The segment that has a place: that of a mark, or looked for from there on, or from either end where that is nearer.
    #[inline(always)]
    pub fn find(&self, from: Mark, len: u32, place: u32) -> Mark
        requires mark { IsMark self.now.parts from }
        requires len { len ≡ length (concat self.now.parts) }
        requires place { place ≤ len }
        ensures mark { IsMark self.now.parts result }
        ensures here { IsInSegment self.now.parts result place }
    {
        if from.start <= place {
            if place - from.start < self.len(from.index) {
                return from;
            }
            if place == len {
                return self.last(len);
            }
        }
        self.look_for(from, len, place)
    }

    /// The segment that has a place.
    fn look_for(&self, from: Mark, len: u32, place: u32) -> Mark
        requires mark { IsMark self.now.parts from }
        requires len { len ≡ length (concat self.now.parts) }
        requires place { place ≤ len }
        ensures mark { IsMark self.now.parts result }
        ensures here { IsInSegment self.now.parts result place }
    {
        let mut mark = self.nearest(from, len, place);
        while place < mark.start {
            mark = self.back(mark);
        }
        let last = self.count() - 1;
        while mark.index < last && mark.start + self.len(mark.index) <= place {
            mark = self.onward(mark);
        }
        mark
    }

    /// The one of a mark, the first segment and the last one that lies nearest to a place.
    fn nearest(&self, from: Mark, len: u32, place: u32) -> Mark
        requires mark { IsMark self.now.parts from }
        requires len { len ≡ length (concat self.now.parts) }
        ensures { IsMark self.now.parts result }
    {
        if place < from.start {
            if place < from.start / 2 {
                return Mark { index: 0, start: 0 };
            }
        } else if len - place.min(len) < place - from.start {
            return self.last(len);
        }
        from
    }

    /// The mark of the last segment.
    #[inline(always)]
    fn last(&self, len: u32) -> Mark
        requires some { 0 < length self.now.parts }
        requires len { len ≡ length (concat self.now.parts) }
        ensures mark { IsMark self.now.parts result }
        ensures end { result.start + length (part self.now.parts result.index) ≡ len }
    {
        let index = self.count() - 1;
        Mark {
            index,
            start: len - self.len(index),
        }
    }

    /// The mark of the segment before.
    #[inline(always)]
    fn back(&self, mark: Mark) -> Mark
        requires mark { IsMark self.now.parts mark }
        requires before { 0 < mark.start }
        ensures mark { IsMark self.now.parts result }
        ensures lower { result.index < mark.index }
    {
        let index = mark.index - 1;
        Mark {
            index,
            start: mark.start - self.len(index),
        }
    }

    /// The mark of the segment behind.
    #[inline(always)]
    fn onward(&self, mark: Mark) -> Mark
        requires mark { IsMark self.now.parts mark }
        requires behind { mark.index + 1 < length self.now.parts }
        requires counted { mark.index + 1 < 2 ^ 64 }
        requires few { length (concat self.now.parts) < 2 ^ 32 }
        ensures mark { IsMark self.now.parts result }
        ensures index { result.index ≡ mark.index + 1 }
        ensures start { result.start ≡ mark.start + length (part self.now.parts mark.index) }
    {
        Mark {
            index: mark.index + 1,
            start: mark.start + self.len(mark.index),
        }
    }
}

/// The entries of a chain from a place on become a chain of their own.
fn take_off(pool: &mut Pool, chain: CellName, place: u32) -> CellName
    requires live { IsLive pool.old chain.0 }
    requires place { place ≤ length (list_of pool.old chain.0) }
    requires spare { 0 < pool.old.spare }
    ensures was { under pool.old.lists result.0 ≡ None }
    ensures kept { under pool.new.lists chain.0 ≡ Some (take place (list_of pool.old chain.0)) }
    ensures taken { under pool.new.lists result.0 ≡ Some (drop place (list_of pool.old chain.0)) }
    ensures others { (name : ℕ) → name ≢ chain.0 → name ≢ result.0 → under pool.new.lists name ≡ under pool.old.lists name }
    ensures spare { pool.new.spare + 1 ≡ pool.old.spare }
{
    let len = pool.len(chain) - place;
    let taken = pool.start_chain();
    for moved in 0..len {
        let value = pool.entry(chain, place);
        pool.cut_between(chain, place, place + 1);
        pool.push_after(taken, moved, value);
    }
    taken
}
