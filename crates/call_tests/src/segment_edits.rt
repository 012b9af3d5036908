//! Random edits of a chain in short segments, each compared with a list beside it.
use segmented_pool::{CHAIN, Pool};
use std::alloc::{AllocError, Global};
use std::marker::Model;
use std::process::Abort;
use std::test::Fail;

const EDITS: u32 = 100_000;

/// So few that the pool is full now and then.
const CELLS: u32 = 60;

/// The entries that a segment does not pass: so few that almost each edit is at the border of one.
const SIZES: [u32; 4] = [1, 2, 3, 4];

#[test]
fn a_chain_in_segments_stays_the_list_beside_it(rt: HostRuntime) -> Result<(), Fail> {
    for size in SIZES {
        let mut kept = Kept::start(rt.alloc(), size)?;
        let mut random: u32 = 1;
        for _edit in 0..EDITS {
            random = random.wrapping_mul(1_664_525).wrapping_add(1_013_904_223);
            kept.edit(&rt, random >> 8)?;
            kept.check(&rt);
        }
    }
    Ok(())
}

#[test]
fn a_peak_may_be_least_or_greatest(rt: HostRuntime) {
    for cells in [1, 2, 16_000_001] {
        let mut pool = Pool::start(rt.alloc(), cells, 1_024).expect(&rt, "memory");
        assert!(rt; pool.spare() > 0);
        pool.push_after(CHAIN, 0, cells);
        assert_eq!(rt; pool.at(CHAIN, 0), cells);
        assert_eq!(rt; pool.spare(), cells - 1);
    }
}

/// A pool, and the list that its chain is to be.
#[derive(Drop)]
struct Kept {
    pool: Pool,
    list: Vec<u32>,
}

impl Model for Kept {
    ghost use Rattle.chain_pool.specs.Chains.{Chains, IsLive};

    ghost Value = { Chains };

    ghost view = { λ a. a.pool };

    ghost invariant = { λ a. IsLive a.pool 0 };
}

impl Kept {
    ghost use Rattle.std.specs.Prelude.{◌≡◌, ◌<◌, vec_len, length};
    ghost use Rattle.chain_pool.specs.Chains.{list_of};

    /// A chain with no entries, and an empty list.
    fn start(alloc: Global, size: u32) -> Result<Kept, AllocError>
        requires { 0 < size }
    {
        let pool = Pool::start(alloc, CELLS, size)?;
        Ok(Kept {
            pool,
            list: Vec::new(alloc),
        })
    }

    /// Makes the edit that the random number chooses, of 24 bits: an entry goes in at some place, if a cell is left for it, or up
    /// to 15 in front of it go.
    fn edit(&mut self, rt: &impl Abort, random: u32) -> Result<(), Fail> {
        let len = self.pool.len(CHAIN);
        assert_eq!(rt; len as usize, self.list.len());
        let place = (random as u64 % (len as u64 + 1)) as u32;
        if (random >> 18) % 5 > 0 {
            if self.pool.spare() > 0 {
                self.pool.push_after(CHAIN, place, random);
                self.list.insert(place as usize, random)?;
            }
        } else {
            let from = place - place.min((random >> 10) & 15);
            self.pool.cut_between(CHAIN, from, place);
            self.list.drain(from as usize..place as usize);
        }
        Ok(())
    }

    /// Sees that the chain is the list, read as it stands and by going there, and that no cell is lost.
    fn check(&mut self, rt: &impl Abort) {
        let len = self.pool.len(CHAIN);
        assert_eq!(rt; len as usize, self.list.len());
        assert_eq!(rt; self.pool.spare() as u64 + len as u64, CELLS as u64);
        for place in 0..len {
            assert_eq!(rt; self.pool.at(CHAIN, place), self.list[place as usize]);
        }
        if len > 0 {
            let last = len - 1;
            assert_eq!(rt; self.pool.entry(CHAIN, last), self.list[last as usize]);
            assert_eq!(rt; self.pool.entry(CHAIN, 0), self.list[0]);
        }
    }
}
