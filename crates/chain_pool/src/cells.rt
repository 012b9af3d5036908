//! The cells of a pool: each chain as two stacks of cells that meet at its place, and the free cells as one more.
ghost use Rattle.std.specs.Prelude.{◌≡◌, ℕ, ◌+◌, ◌-◌, ◌<◌, ◌≤◌, ◌^◌, [], ◌∷◌, length, reverse, slice_index, IsSome, Some, None, IsOk, OnOk, OnErr, max};
ghost use Rattle.chain_pool.specs.Chains.{under, IsUnder, IsEdit, IsAlike, cells_in};

use crate::entries::{Entries, Halves};
use slab::Slab;
use std::alloc::{AllocError, Global};
use std::marker::Model;
use std::mem;

/// The most cells that a pool has: links have 32 bits.
pub const MOST_CELLS: usize = 4_294_967_296;

/// A chain of a pool, by its head cell.
#[derive(Clone, Copy, Debug, PartialEq, Eq)]
pub struct CellName(pub u32);

/// Cells on one another, each with a link to the one below it.
#[derive(Clone, Copy)]
pub struct Stack {
    pub top: u32,
    pub len: u32,
}

impl Stack {
    /// The stack with one cell more, on top.
    #[inline(always)]
    fn with_top(self, cell: u32) -> Stack
        requires { self.len + 1 < 2 ^ 32 }
        ensures { result ≡ record { top = cell; len = self.len + 1 } }
    {
        Stack {
            top: cell,
            len: self.len + 1,
        }
    }

    /// The stack without its top cell, where this one lies below it.
    #[inline(always)]
    fn without_top(self, below: u32) -> Stack
        requires { 0 < self.len }
        ensures { result ≡ record { top = below; len = self.len - 1 } }
    {
        Stack {
            top: below,
            len: self.len - 1,
        }
    }
}

#[derive(Clone, Copy)]
pub enum Cell {
    /// A chain: its entries before the place with the nearest on top, and those from the place on.
    Head { left: Stack, right: Stack },
    /// An entry of a list, or a free cell.
    Entry { next: u32, value: u32 },
}

const NO_CELLS: Stack = Stack { top: 0, len: 0 };

/// Chains at their places, in cells that stay in one slab for good.
#[derive(Drop)]
pub struct Cells {
    slots: Slab<Cell>,
    free: Stack,
    spare: u32,
}

impl Model for Cells {
    ghost use Rattle.chain_pool.specs.Memory.{PartedChains, chains_of, IsSound};

    ghost Value = { PartedChains };

    ghost view = { λ a. record { chains = chains_of a.slots.slots; spare = a.spare; free = a.free.len } };

    ghost invariant = { λ a. IsSound a.slots.slots a.slots.capacity a.free a.spare };
}

impl Cells {
    ghost use Rattle.chain_pool.specs.Memory.{parted_under, parted_at, joined, joined_lists, advanced, retreated, pushed_before, cut_here};

    /// No chains and no cells.
    pub fn new(alloc: Global) -> Cells
        ensures chains { result.chains ≡ [] }
        ensures spare { result.spare ≡ 0 }
    {
        Cells {
            slots: Slab::new(alloc),
            free: NO_CELLS,
            spare: 0,
        }
    }

    /// The number of cells that can be taken.
    pub fn spare(&self) -> u32
        ensures { result ≡ self.now.spare }
    {
        self.spare
    }

    /// How many cells of those that can be taken are made already.
    pub fn free(&self) -> u32
        ensures free { result ≡ self.now.free }
        ensures made { result ≤ self.now.spare }
    {
        self.free.len
    }

    /// Makes a cell in the room that is reserved.
    pub fn make_cell(&mut self)
        requires { self.old.free < self.old.spare }
        ensures chains { IsAlike self.old.chains self.new.chains }
        ensures spare { self.new.spare ≡ self.old.spare }
        ensures free { self.new.free ≡ self.old.free + 1 }
    {
        let key = self.slots.insert_reserved(Cell::Entry {
            next: self.free.top,
            value: 0,
        });
        self.free = self.free.with_top(key as u32);
    }

    /// Makes all cells that can be taken.
    fn make_all(&mut self)
        ensures chains { IsAlike self.old.chains self.new.chains }
        ensures spare { self.new.spare ≡ self.old.spare }
        ensures free { self.new.free ≡ self.old.spare }
    {
        while self.free() < self.spare() {
            self.make_cell();
        }
    }

    /// Makes a cell where none is free.
    pub fn make_ready(&mut self)
        requires { 0 < self.old.spare }
        ensures chains { IsAlike self.old.chains self.new.chains }
        ensures spare { self.new.spare ≡ self.old.spare }
        ensures free { 0 < self.new.free }
    {
        if self.free() == 0 {
            self.make_cell();
        }
    }

    /// Makes room, so that at least `n` cells can be taken. The error is that there is no memory for them, or that
    /// they are more than links can tell apart; then as many can be taken as before.
    pub fn reserve(&mut self, n: u32) -> Result<(), AllocError>
        requires { cells_in (joined_lists self.old.chains) + max n self.old.spare < 2 ^ 32 }
        ensures chains { IsAlike self.old.chains self.new.chains }
        ensures spare { OnOk result (self.new.spare ≡ max n self.old.spare) }
        ensures refused { OnErr result (self.new.spare ≡ self.old.spare) }
    {
        if n <= self.spare {
            return Ok(());
        }
        // The room of cells that are made stays good, whatever the slab answers.
        self.make_all();
        self.slots.reserve((n - self.free.len) as usize)?;
        if self.slots.capacity() > MOST_CELLS {
            return Err(AllocError);
        }
        self.spare = n;
        Ok(())
    }

    /// A chain with no entries, in a free cell.
    pub fn start(&mut self) -> CellName
        requires { 0 < self.old.free }
        ensures was { under self.old.chains result.0 ≡ None }
        ensures chain { IsEdit self.old.chains self.new.chains result.0 (Some (record { before = []; behind = [] })) }
        ensures spare { self.new.spare + 1 ≡ self.old.spare }
        ensures free { self.new.free + 1 ≡ self.old.free }
    {
        let head = self.free.top;
        let (next, _) = entry(&self.slots, head);
        write(
            &mut self.slots,
            head,
            Cell::Head {
                left: NO_CELLS,
                right: NO_CELLS,
            },
        );
        self.free = self.free.without_top(next);
        self.spare -= 1;
        CellName(head)
    }

    /// The head of a chain with no entries becomes a free cell.
    pub fn drop_head(&mut self, chain: CellName)
        requires live { IsUnder self.old.chains chain.0 }
        requires empty { parted_under self.old.chains chain.0 ≡ record { before = []; behind = [] } }
        ensures chain { IsEdit self.old.chains self.new.chains chain.0 None }
        ensures spare { self.new.spare ≡ self.old.spare + 1 }
        ensures free { self.new.free ≡ self.old.free + 1 }
    {
        write(
            &mut self.slots,
            chain.0,
            Cell::Entry {
                next: self.free.top,
                value: 0,
            },
        );
        self.free = self.free.with_top(chain.0);
        self.spare += 1;
    }

    /// How many entries a chain has.
    pub fn len(&self, chain: CellName) -> u32
        requires { IsUnder self.now.chains chain.0 }
        ensures { let parted = parted_under self.now.chains chain.0 in result ≡ length parted.before + length parted.behind }
    {
        let (left, right) = head(&self.slots, chain);
        left.len + right.len
    }

    /// Readers of both sides of a chain.
    pub fn halves(&self, chain: CellName) -> Halves<'_>
        requires { IsUnder self.now.chains chain.0 }
        ensures before { result.before ≡ (parted_under self.now.chains chain.0).before }
        ensures behind { result.behind ≡ (parted_under self.now.chains chain.0).behind }
    {
        let (left, right) = head(&self.slots, chain);
        Halves {
            before: Entries::new(&self.slots, left),
            behind: Entries::new(&self.slots, right),
        }
    }

    /// The entry at the place of a chain.
    pub fn next(&self, chain: CellName) -> u32
        requires live { IsUnder self.now.chains chain.0 }
        requires behind { 0 < length (parted_under self.now.chains chain.0).behind }
        ensures { result ≡ slice_index (parted_under self.now.chains chain.0).behind 0 }
    {
        let (_, right) = head(&self.slots, chain);
        let (_, value) = entry(&self.slots, right.top);
        value
    }

    /// How many entries of a chain are before its place.
    #[inline(always)]
    fn place(&self, chain: CellName) -> u32
        requires { IsUnder self.now.chains chain.0 }
        ensures { result ≡ length (parted_under self.now.chains chain.0).before }
    {
        let (left, _) = head(&self.slots, chain);
        left.len
    }

    /// The place of a chain becomes this one. Where it is this one already, nothing is called.
    #[inline(always)]
    pub fn go_to(&mut self, chain: CellName, place: u32)
        requires live { IsUnder self.old.chains chain.0 }
        requires place { place ≤ length (joined (parted_under self.old.chains chain.0)) }
        ensures chain { IsEdit self.old.chains self.new.chains chain.0
            (Some (parted_at (joined (parted_under self.old.chains chain.0)) place)) }
        ensures names { length self.new.chains ≡ length self.old.chains }
        ensures spare { self.new.spare ≡ self.old.spare }
        ensures free { self.new.free ≡ self.old.free }
    {
        if self.place(chain) != place {
            self.travel(chain, place);
        }
    }

    /// The place of a chain becomes this one, entry by entry.
    fn travel(&mut self, chain: CellName, place: u32)
        requires live { IsUnder self.old.chains chain.0 }
        requires place { place ≤ length (joined (parted_under self.old.chains chain.0)) }
        ensures chain { IsEdit self.old.chains self.new.chains chain.0
            (Some (parted_at (joined (parted_under self.old.chains chain.0)) place)) }
        ensures names { length self.new.chains ≡ length self.old.chains }
        ensures spare { self.new.spare ≡ self.old.spare }
        ensures free { self.new.free ≡ self.old.free }
    {
        let (mut left, mut right) = head(&self.slots, chain);
        'on: while left.len < place {
            let next = relink(&mut self.slots, right.top, left.top);
            left = left.with_top(right.top);
            right = right.without_top(next);
        }
        'back: while place < left.len {
            let next = relink(&mut self.slots, left.top, right.top);
            right = right.with_top(left.top);
            left = left.without_top(next);
        }
        write(&mut self.slots, chain.0, Cell::Head { left, right });
    }

    /// A free cell with a value goes in right before the place of a chain.
    pub fn push(&mut self, chain: CellName, value: u32)
        requires live { IsUnder self.old.chains chain.0 }
        requires free { 0 < self.old.free }
        ensures chain { IsEdit self.old.chains self.new.chains chain.0 (Some (pushed_before (parted_under self.old.chains chain.0) value)) }
        ensures spare { self.new.spare + 1 ≡ self.old.spare }
        ensures free { self.new.free + 1 ≡ self.old.free }
    {
        let (left, right) = head(&self.slots, chain);
        let cell = self.free.top;
        let (next, _) = entry(&self.slots, cell);
        write(
            &mut self.slots,
            cell,
            Cell::Entry {
                next: left.top,
                value,
            },
        );
        let left = left.with_top(cell);
        write(&mut self.slots, chain.0, Cell::Head { left, right });
        self.free = self.free.without_top(next);
        self.spare -= 1;
    }

    /// The entry at the place of a chain goes, and its cell becomes a free one.
    pub fn cut(&mut self, chain: CellName)
        requires live { IsUnder self.old.chains chain.0 }
        requires behind { 0 < length (parted_under self.old.chains chain.0).behind }
        ensures chain { IsEdit self.old.chains self.new.chains chain.0 (Some (cut_here (parted_under self.old.chains chain.0))) }
        ensures names { length self.new.chains ≡ length self.old.chains }
        ensures spare { self.new.spare ≡ self.old.spare + 1 }
        ensures free { self.new.free ≡ self.old.free + 1 }
    {
        let (left, right) = head(&self.slots, chain);
        let freed = right.top;
        let next = relink(&mut self.slots, freed, self.free.top);
        self.free = self.free.with_top(freed);
        let right = right.without_top(next);
        write(&mut self.slots, chain.0, Cell::Head { left, right });
        self.spare += 1;
    }
}

ghost use Rattle.slab.specs.Slab.{with_value};
ghost use Rattle.chain_pool.specs.Memory.{chains_of, IsEntry};

/// The two stacks of a chain.
fn head(slots: &Slab<Cell>, chain: CellName) -> (Stack, Stack)
    requires { IsUnder (chains_of slots.now.slots) chain.0 }
    ensures { under slots.now.slots chain.0 ≡ Some (Cell.Head result.0 result.1) }
{
    match slots.get(chain.0 as usize) {
        Some(Cell::Head { left, right }) => (*left, *right),
        _ => unreachable!(),
    }
}

/// The link and the value of a cell that is no head.
pub fn entry(slots: &Slab<Cell>, key: u32) -> (u32, u32)
    requires { IsEntry (under slots.now.slots key) }
    ensures { under slots.now.slots key ≡ Some (Cell.Entry result.0 result.1) }
{
    match slots.get(key as usize) {
        Some(Cell::Entry { next, value }) => (*next, *value),
        _ => unreachable!(),
    }
}

/// The link of a cell that is no head becomes this one, and its value stays. The link that it was.
#[inline(always)]
fn relink(slots: &mut Slab<Cell>, key: u32, to: u32) -> u32
    requires { IsEntry (under slots.old.slots key) }
    ensures { (value : ℕ) × (under slots.old.slots key ≡ Some (Cell.Entry result value))
        × (slots.new ≡ with_value slots.old key (Cell.Entry to value)) }
{
    match &mut slots[key as usize] {
        Cell::Entry { next, .. } => mem::replace(next, to),
        Cell::Head { .. } => unreachable!(),
    }
}

/// Writes over a cell.
fn write(slots: &mut Slab<Cell>, key: u32, cell: Cell)
    requires { IsUnder slots.old.slots key }
    ensures { slots.new ≡ with_value slots.old key cell }
{
    slots[key as usize] = cell;
}
