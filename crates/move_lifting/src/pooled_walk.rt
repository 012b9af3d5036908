//! A walk that is edited in place, in cells that were reserved before.
ghost use Rattle.std.specs.Prelude.{◌≡◌, ◌+◌, ◌-◌, ◌<◌, ◌≤◌, ◌^◌, [], ◌∷◌, ◌++◌, max, length, drop, slice_index, IfOk, OnOk};
ghost use Rattle.chain_pool.specs.Chains.{IsEdit, IsLive, list_of, cut, spliced};
ghost use Rattle.surf_model.specs.Vertices.{numbers};
ghost use Rattle.move_lifting.specs.PooledWalks.{IsPushed};

use chain_pool::{CellName, Pool};
use std::alloc::{AllocError, Global};
use std::marker::Model;
use surf_model::{VertexName, Walk};

/// A walk as one chain of a pool. An entry that comes takes one of the cells that were reserved before, and one that goes
/// gives its cell back, so that no edit takes memory.
#[derive(Drop)]
pub(crate) struct PooledWalk {
    pool: Pool,
    chain: CellName,
}

impl Model for PooledWalk {
    ghost use Rattle.chain_pool.specs.Chains.{list_of};
    ghost use Rattle.move_lifting.specs.PooledWalks.{Pooled, IsAlone};

    ghost Value = { Pooled };

    ghost view = { λ a. record { walk = list_of a.pool a.chain.0; spare = a.pool.spare } };

    ghost invariant = { λ a. IsAlone a.pool a.chain };
}

impl PooledWalk {
    /// The walk of one vertex, with cells for so many more entries.
    pub(crate) fn start(
        alloc: Global,
        start: VertexName,
        more: u32,
    ) -> Result<PooledWalk, AllocError>
        requires { more + 2 < 2 ^ 32 }
        ensures { IfOk result (λ pooled. pooled ≡ record { walk = start.0 ∷ []; spare = more }) }
    {
        let mut pool = Pool::new(alloc);
        // The chain costs a cell, and so does its first entry.
        pool.reserve(more + 2)?;
        let chain = pool.start_chain();
        pool.push_after(chain, 0, start.0);
        Ok(PooledWalk { pool, chain })
    }

    /// Makes room, so that at least so many more entries can come.
    pub(crate) fn reserve(&mut self, more: u32) -> Result<(), AllocError>
        requires { length self.old.walk + more + 1 < 2 ^ 32 }
        ensures { OnOk result (self.new ≡ record self.old { spare = max more self.old.spare }) }
    {
        self.pool.reserve(more)
    }

    /// The number of entries.
    pub(crate) fn len(&self) -> u32
        ensures count { result ≡ length self.now.walk }
        // What holds of every such walk.
        ensures some { 0 < result }
    {
        self.pool.len(self.chain)
    }

    /// The first entry.
    pub(crate) fn first(&self) -> VertexName
        ensures { result.0 ≡ slice_index self.now.walk 0 }
    {
        VertexName(self.pool.at(self.chain, 0))
    }

    /// The entry at a place. It costs the way from the place of the last edit or of the last `read`.
    pub(crate) fn at(&self, place: u32) -> VertexName
        requires { place < length self.now.walk }
        ensures { result.0 ≡ slice_index self.now.walk place }
    {
        VertexName(self.pool.at(self.chain, place))
    }

    /// The entry at a place, from where the next way is counted: so to read all in order costs a step each.
    pub(crate) fn read(&mut self, place: u32) -> VertexName
        requires { place < length self.old.walk }
        ensures value { result.0 ≡ slice_index self.old.walk place }
        ensures same { self.new ≡ self.old }
    {
        VertexName(self.pool.entry(self.chain, place))
    }

    /// One more entry comes last.
    pub(crate) fn push(&mut self, vertex: VertexName)
        requires { 0 < self.old.spare }
        ensures walk { self.new.walk ≡ self.old.walk ++ vertex.0 ∷ [] }
        ensures spare { self.new.spare + 1 ≡ self.old.spare }
    {
        push_vertex(&mut self.pool, self.chain, vertex);
    }

    /// The entries from place `from` up to `to`, without `to`, go.
    pub(crate) fn cut(&mut self, from: u32, to: u32)
        requires starts { 0 < from }
        requires order { from ≤ to }
        requires within { to ≤ length self.old.walk }
        ensures walk { self.new.walk ≡ cut self.old.walk from to }
        ensures spare { self.new.spare + from ≡ self.old.spare + to }
    {
        self.pool.cut_between(self.chain, from, to);
    }

    /// A piece is moved in at a place: first these vertices, then a turn without its start, and then those of the way back.
    ///
    /// The piece is made as a chain of its own, which costs a cell for a while.
    pub(crate) fn put_in(
        &mut self,
        place: u32,
        there: &[VertexName],
        turn: &Walk,
        back: &[VertexName],
    )
        requires place { place ≤ length self.old.walk }
        requires turn { 0 < length turn.now }
        requires spare { length there.now + length turn.now + length back.now ≤ self.old.spare }
        ensures walk { self.new.walk
            ≡ spliced self.old.walk place (numbers there.now ++ (drop 1 turn.now ++ numbers back.now)) }
        ensures cells { length self.new.walk + self.new.spare ≡ length self.old.walk + self.old.spare }
    {
        let piece = self.pool.start_chain();
        push_all(&mut self.pool, piece, there);
        push_turn(&mut self.pool, piece, turn);
        push_all(&mut self.pool, piece, back);
        self.pool.splice(self.chain, place, piece);
    }
}

/// Puts a vertex last in a chain.
fn push_vertex(pool: &mut Pool, chain: CellName, vertex: VertexName)
    requires live { IsLive pool.old chain.0 }
    requires spare { 0 < pool.old.spare }
    ensures { IsPushed pool.old pool.new chain (vertex.0 ∷ []) }
{
    let place = pool.len(chain);
    pool.push_after(chain, place, vertex.0);
}

/// Puts vertices last in a chain.
fn push_all(pool: &mut Pool, chain: CellName, vertices: &[VertexName])
    requires live { IsLive pool.old chain.0 }
    requires spare { length vertices.now ≤ pool.old.spare }
    ensures { IsPushed pool.old pool.new chain (numbers vertices.now) }
{
    for vertex in vertices {
        push_vertex(pool, chain, *vertex);
    }
}

/// Puts the vertices of a walk behind its start last in a chain.
fn push_turn(pool: &mut Pool, chain: CellName, turn: &Walk)
    requires live { IsLive pool.old chain.0 }
    requires spare { length turn.now ≤ pool.old.spare + 1 }
    ensures { IsPushed pool.old pool.new chain (drop 1 turn.now) }
{
    for place in 0..turn.darts() {
        push_vertex(pool, chain, turn.at(place + 1));
    }
}
