//! The pool of chains of cells, each call once.
ghost use Rattle.chain_pool.specs.Chains.{IsLive};

use chain_pool::{CellName, Pool};
use std::process::Abort;
use std::test::Fail;

#[test]
fn two_entries_take_all_of_three_cells(rt: HostRuntime) -> Result<(), Fail> {
    let mut pool = Pool::new(rt.alloc());
    pool.reserve(3)?;
    let chain = pool.start_chain();
    pool.push_after(chain, 0, 7);
    pool.push_after(chain, 1, 8);
    assert_eq!(rt; pool.spare(), 0);
    assert_eq!(rt; pool.at(chain, 0), 7);
    assert_eq!(rt; pool.at(chain, 1), 8);
    pool.cut_between(chain, 0, 1);
    assert_eq!(rt; pool.spare(), 1);
    assert_eq!(rt; pool.len(chain), 1);
    pool.give_back(chain);
    assert_eq!(rt; pool.spare(), 3);
    Ok(())
}

#[test]
fn a_chain_is_moved_into_another(rt: HostRuntime) -> Result<(), Fail> {
    let mut pool = Pool::new(rt.alloc());
    pool.reserve(5)?;
    let chain = pool.start_chain();
    pool.push_after(chain, 0, 1);
    pool.push_after(chain, 1, 3);
    let other = pool.start_chain();
    pool.push_after(other, 0, 2);
    pool.splice(chain, 1, other);
    assert_eq!(rt; pool.spare(), 1);
    assert_eq!(rt; pool.len(chain), 3);
    check_list(&rt, &pool, chain);
    Ok(())
}

/// The list counts up from 1, read from the chain's place outwards.
fn check_list(rt: &impl Abort, pool: &Pool, chain: CellName)
    requires { IsLive pool.now chain.0 }
{
    let halves = pool.halves(chain);
    let place = halves.before.len();
    let mut expected = place;
    for entry in halves.before {
        assert_eq!(rt; entry, expected);
        expected = expected.saturating_sub(1);
    }
    let mut expected = place;
    for entry in halves.behind {
        expected = expected.saturating_add(1);
        assert_eq!(rt; entry, expected);
    }
}
