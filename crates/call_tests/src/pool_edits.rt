//! Random edits of two chains of one pool, each compared with a list beside it.
ghost use Rattle.std.specs.Prelude.{◌≡◌, ◌≤◌, length, vec_len};
ghost use Rattle.chain_pool.specs.Chains.{IsLive, list_of};

use chain_pool::{CellName, Pool};
use std::alloc::Global;
use std::marker::Model;
use std::mem::swap;
use std::process::Abort;
use std::test::Fail;

const EDITS: u32 = 100_000;

/// So few that the pool is full now and then.
const CELLS: u32 = 90;

#[test]
fn chains_stay_the_lists_beside_them(rt: HostRuntime) -> Result<(), Fail> {
    let mut pool = Pool::new(rt.alloc());
    pool.reserve(CELLS)?;
    let mut pair = Pair::start(rt.alloc(), pool);
    let mut random: u32 = 1;
    for _edit in 0..EDITS {
        random = random.wrapping_mul(1_664_525).wrapping_add(1_013_904_223);
        pair.edit(&rt, random >> 8)?;
        pair.check(&rt);
    }
    Ok(())
}

/// A chain, and the list that it is to be.
#[derive(Drop)]
struct Listed {
    chain: CellName,
    list: Vec<u32>,
}

impl Listed {
    /// The length of the chain, which is that of the list.
    fn len(&self, rt: &impl Abort, pool: &Pool) -> u32
        requires { IsLive pool.now self.now.chain.0 }
        ensures chain { result ≡ length (list_of pool.now self.now.chain.0) }
        ensures list { result ≡ vec_len self.now.list }
    {
        let len = pool.len(self.chain);
        assert_eq!(rt; len as usize, self.list.len());
        len
    }

    /// Sees that the entries of the chain are those of the list.
    fn check(&self, rt: &impl Abort, pool: &Pool)
        requires { IsLive pool.now self.now.chain.0 }
    {
        let len = self.len(rt, pool);
        for place in 0..len {
            assert_eq!(rt; pool.at(self.chain, place), self.list[place as usize]);
        }
    }
}

/// Two chains of a pool.
#[derive(Drop)]
struct Pair {
    pool: Pool,
    one: Listed,
    other: Listed,
}

impl Model for Pair {
    ghost use Rattle.std.specs.Prelude.{◌≢◌};
    ghost use Rattle.chain_pool.specs.Chains.{Chains, IsLive};

    ghost Value = { Chains };

    ghost view = { λ a. a.pool };

    ghost invariant = { λ a. IsLive a.pool a.one.chain.0 × IsLive a.pool a.other.chain.0
        × (a.one.chain.0 ≢ a.other.chain.0) };
}

impl Pair {
    /// Two chains without entries.
    fn start(alloc: Global, mut pool: Pool) -> Pair
        requires { 2 ≤ pool.spare }
    {
        let one = Listed {
            chain: pool.start_chain(),
            list: Vec::new(alloc),
        };
        let other = Listed {
            chain: pool.start_chain(),
            list: Vec::new(alloc),
        };
        Pair { pool, one, other }
    }

    /// Makes the edit that the random number chooses, of 24 bits.
    fn edit(&mut self, rt: &impl Abort, random: u32) -> Result<(), Fail> {
        if random & (1 << 17) == 0 {
            swap(&mut self.one, &mut self.other);
        }
        match random >> 18 {
            0 => self.move_in(rt, random)?,
            1 => self.start_again(),
            2..=11 => self.cut(rt, random),
            _ => self.insert(rt, random)?,
        }
        Ok(())
    }

    /// An entry goes in at some place, if a cell is left for it.
    fn insert(&mut self, rt: &impl Abort, random: u32) -> Result<(), Fail> {
        let place = place_up_to(self.one.len(rt, &self.pool), random);
        if self.pool.spare() > 0 {
            self.pool.push_after(self.one.chain, place, random);
            self.one.list.insert(place as usize, random)?;
        }
        Ok(())
    }

    /// Up to seven entries in front of some place go.
    fn cut(&mut self, rt: &impl Abort, random: u32) {
        let to = place_up_to(self.one.len(rt, &self.pool), random);
        let from = to - to.min((random >> 10) & 7);
        self.pool.cut_between(self.one.chain, from, to);
        self.one.list.drain(from as usize..to as usize);
    }

    /// All entries of the second chain are moved in at some place of the first.
    fn move_in(&mut self, rt: &impl Abort, random: u32) -> Result<(), Fail> {
        let place = place_up_to(self.one.len(rt, &self.pool), random);
        self.pool.splice(self.one.chain, place, self.other.chain);
        self.other.chain = self.pool.start_chain();
        let mut behind = self.one.list.split_off(place as usize)?;
        self.one.list.append(&mut self.other.list)?;
        self.one.list.append(&mut behind)?;
        Ok(())
    }

    /// The second chain is given back, and a new one is started.
    fn start_again(&mut self) {
        self.pool.give_back(self.other.chain);
        self.other.chain = self.pool.start_chain();
        self.other.list.clear();
    }

    /// Sees that both chains are their lists, and that no cell is lost.
    fn check(&self, rt: &impl Abort) {
        self.one.check(rt, &self.pool);
        self.other.check(rt, &self.pool);
        let entries = self.one.len(rt, &self.pool) as u64 + self.other.len(rt, &self.pool) as u64;
        assert_eq!(rt; self.pool.spare() as u64 + entries + 2, CELLS as u64);
    }
}

/// A place up to this one, by a random number.
fn place_up_to(most: u32, random: u32) -> u32
    ensures { result ≤ most }
{
    (random as u64 % (most as u64 + 1)) as u32
}
