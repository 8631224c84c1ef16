//! Nids that are taken, and those that base and log hold.

use f2_nid_pool::Pool;
use std::alloc::Global;
use std::test::Fail;

fn draws_the_least_free_nid(alloc: Global) -> Result<bool, Fail> {
    let mut pool = Pool::new(alloc, 455)?;
    let mut holds = true;
    for nid in [4, 5, 6] {
        holds &= pool.take() == Some(nid);
    }
    Ok(holds)
}

#[tactic(auto, using(f2_nid_pool::proofs::Sets::sets))]
fn keeps_what_the_base_and_the_log_hold(alloc: Global) -> Result<bool, Fail> {
    let mut pool = Pool::new(alloc, 7)?;
    pool.adopt(4);
    pool.give(4);
    pool.logged(5);
    Ok(pool.take() == Some(6))
}

fn a_checkpoint_gives_numbers_back(alloc: Global) -> Result<bool, Fail> {
    let mut pool = Pool::new(alloc, 5)?;
    pool.logged(4);
    let none = pool.take();
    pool.committed();
    Ok(none == None && pool.take() == Some(4))
}

#[test]
fn all_of_nid_pool(rt: HostRuntime) -> Result<(), Fail> {
    assert!(rt; draws_the_least_free_nid(rt.alloc())?);
    assert!(rt; keeps_what_the_base_and_the_log_hold(rt.alloc())?);
    assert!(rt; a_checkpoint_gives_numbers_back(rt.alloc())?);
    Ok(())
}
