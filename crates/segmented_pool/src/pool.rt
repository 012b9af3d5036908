//! A pool of cells with one long chain.
ghost use Rattle.std.specs.Prelude.{◌≡◌, ◌+◌, ◌<◌, ◌≤◌, ◌^◌, [], ◌∷◌, ◌++◌, length, reverse, take, drop, slice_index, Some, IfOk};
ghost use Rattle.chain_pool.specs.Chains.{IsEdit, IsLive, list_of, inserted, cut};

use crate::segments::{Mark, Segments};
use chain_pool::{CellName, Halves};
use std::alloc::{AllocError, Global};
use std::marker::Model;

/// The name of the one chain.
pub const CHAIN: CellName = CellName(0);

/// One list of numbers under a name, and a number of cells that can be taken with no memory.
///
/// An edit costs the way from the last place to its own, or from an end of the list, of which a segment costs as much as
/// an entry within one; and the entries that go in or out.
#[derive(Drop)]
pub struct Pool {
    segments: Segments,
    /// The segment of the last place.
    mark: Mark,
    len: u32,
    spare: u32,
    /// The number of entries that a segment does not pass, where there is room for one more.
    most: u32,
}

impl Model for Pool {
    ghost use Rattle.std.specs.Prelude.{[], ◌∷◌, Some};
    ghost use Rattle.std.specs.List.{concat};
    ghost use Rattle.chain_pool.specs.Chains.{Chains};
    ghost use Rattle.segmented_pool.specs.Segments.{IsKeptInSegments};

    ghost Value = { Chains };

    ghost view = { λ a. record { lists = Some (concat a.segments.parts) ∷ []; spare = a.spare } };

    ghost invariant = { λ a. IsKeptInSegments a.segments a.mark a.len a.spare };
}

impl Pool {
    /// A chain with no entries, and room for so many, in segments of about `most`. The error is that there is no memory
    /// for them.
    pub fn start(alloc: Global, spare: u32, most: u32) -> Result<Pool, AllocError>
        requires few { spare ≤ 2 ^ 29 }
        requires some { 0 < most }
        ensures lists { IfOk result (λ pool. pool.lists ≡ Some [] ∷ []) }
        ensures spare { IfOk result (λ pool. pool.spare ≡ spare) }
    {
        // Two neighbours have more than half of a full segment, so no list has more segments.
        let segments = spare / most * 4 + 4;
        Ok(Pool {
            segments: Segments::start(alloc, spare + segments, segments)?,
            mark: Mark { index: 0, start: 0 },
            len: 0,
            spare,
            most,
        })
    }

    /// The number of cells that can be taken with no memory.
    pub fn spare(&self) -> u32
        ensures { result ≡ self.now.spare }
    {
        self.spare
    }

    /// The number of entries of the chain.
    pub fn len(&self, chain: CellName) -> u32
        requires { IsLive self.now chain.0 }
        ensures { result ≡ length (list_of self.now chain.0) }
    {
        self.len
    }

    /// An entry of the chain.
    pub fn at(&self, chain: CellName, place: u32) -> u32
        requires live { IsLive self.now chain.0 }
        requires place { place < length (list_of self.now chain.0) }
        ensures { result ≡ slice_index (list_of self.now chain.0) place }
    {
        let mark = self.segments.find(self.mark, self.len, place);
        self.segments.at(mark.index, place - mark.start)
    }

    /// An entry of the chain, whose place becomes the remembered one. Of the pool the same is seen.
    pub fn entry(&mut self, chain: CellName, place: u32) -> u32
        requires live { IsLive self.old chain.0 }
        requires place { place < length (list_of self.old chain.0) }
        ensures value { result ≡ slice_index (list_of self.old chain.0) place }
        ensures same { self.new ≡ self.old }
    {
        let mark = self.segments.find(self.mark, self.len, place);
        self.mark = mark;
        self.segments.entry(mark.index, place - mark.start)
    }

    /// The value becomes entry `place` of the chain. It costs one cell.
    pub fn push_after(&mut self, chain: CellName, place: u32, value: u32)
        requires live { IsLive self.old chain.0 }
        requires place { place ≤ length (list_of self.old chain.0) }
        requires spare { 0 < self.old.spare }
        ensures list { IsEdit self.old.lists self.new.lists chain.0 (Some (inserted (list_of self.old chain.0) place value)) }
        ensures spare { self.new.spare + 1 ≡ self.old.spare }
    {
        let mark = self.segments.find(self.mark, self.len, place);
        self.mark = mark;
        self.segments
            .push_after(mark.index, place - mark.start, value);
        self.len += 1;
        self.spare -= 1;
        self.split(place - mark.start);
    }

    /// The entries of the chain from place `from` up to `to`, without `to`, go. Their cells can be taken again.
    pub fn cut_between(&mut self, chain: CellName, from: u32, to: u32)
        requires live { IsLive self.old chain.0 }
        requires order { from ≤ to }
        requires place { to ≤ length (list_of self.old chain.0) }
        ensures list { IsEdit self.old.lists self.new.lists chain.0 (Some (cut (list_of self.old chain.0) from to)) }
        ensures spare { self.new.spare + from ≡ self.old.spare + to }
    {
        let mut left = to - from;
        while left > 0 {
            left -= self.cut_some(chain, from, left);
        }
    }

    /// Readers of the segment that has a place, and how many entries lie before that segment.
    pub fn around(&self, chain: CellName, place: u32) -> (u32, Halves<'_>)
        requires live { IsLive self.now chain.0 }
        requires place { place < length (list_of self.now chain.0) }
        ensures list { reverse result.1.before ++ result.1.behind
            ≡ take (length result.1.before + length result.1.behind) (drop result.0 (list_of self.now chain.0)) }
        ensures from { result.0 ≤ place }
        ensures to { place < result.0 + (length result.1.before + length result.1.behind) }
        ensures within { result.0 + (length result.1.before + length result.1.behind) ≤ length (list_of self.now chain.0) }
    {
        let mark = self.segments.find(self.mark, self.len, place);
        (mark.start, self.segments.halves(mark.index))
    }

    /// So many entries from a place on go, or those of them that are in one segment. How many went.
    #[inline(never)]
    fn cut_some(&mut self, chain: CellName, from: u32, most: u32) -> u32
        requires live { IsLive self.old chain.0 }
        requires some { 0 < most }
        requires place { from + most ≤ length (list_of self.old chain.0) }
        ensures some { 0 < result }
        ensures most { result ≤ most }
        ensures list { IsEdit self.old.lists self.new.lists chain.0 (Some (cut (list_of self.old chain.0) from (from + result))) }
        ensures spare { self.new.spare ≡ self.old.spare + result }
    {
        let mark = self.segments.find(self.mark, self.len, from);
        self.mark = mark;
        let place = from - mark.start;
        let gone = most.min(self.segments.len(mark.index) - place);
        self.segments.cut_between(mark.index, place, place + gone);
        self.len -= gone;
        self.spare += gone;
        self.settle();
        gone
    }

    /// The segment of the last place, which is this place in it, becomes two where it is long, and a cell and room for one
    /// more are to be had: in halves, or where the place is behind the middle, at the place. So entries that are laid one
    /// behind the other fill their segments.
    #[inline(always)]
    fn split(&mut self, place: u32)
        ensures { self.new ≡ self.old }
    {
        let index = self.mark.index;
        let len = self.segments.len(index);
        if len > self.most && self.segments.spare() > self.spare {
            self.segments.split(index, place.max(len / 2).min(len));
        }
    }

    /// The segment of the last place is joined to a neighbour, where both together are small or it is empty.
    fn settle(&mut self)
        ensures { self.new ≡ self.old }
    {
        let Mark { index, start } = self.mark;
        let len = self.segments.len(index);
        let small = self.most / 2;
        if len > small {
            return;
        }
        if index > 0 {
            let before = self.segments.len(index - 1);
            if len == 0 || before + len <= small {
                self.mark = Mark {
                    index: index - 1,
                    start: start - before,
                };
                self.segments.join(index - 1);
                return;
            }
        }
        if index < self.segments.count() - 1 && len + self.segments.len(index + 1) <= small {
            self.segments.join(index);
        }
    }
}
