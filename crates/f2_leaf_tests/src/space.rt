//! Blocks of a zone that are promised, drawn, taken and given back.

use f2_space::{Room, Zone};
use std::alloc::Global;
use std::test::Fail;

#[tactic(auto, using(f2_space::proofs::Sets::sets))]
fn a_full_log_takes_no_more(alloc: Global) -> Result<bool, Fail> {
    let mut zone = Zone::new(alloc, 10, 9)?;
    let promised = zone.reserve(9).is_ok();
    Ok(promised && zone.take_log() == None && zone.reserve(1) == Err(Room))
}

#[tactic(auto, using(f2_space::proofs::Sets::sets))]
fn promised_blocks_count_once(alloc: Global) -> Result<bool, Fail> {
    let mut zone = Zone::new(alloc, 10, 2)?;
    zone.reserve(2)?;
    zone.unpromise(1);
    Ok(zone.take_log() == Some(10) && zone.reserve(1) == Err(Room))
}

#[tactic(auto, using(f2_space::proofs::Sets::sets))]
fn a_promised_block_is_taken(alloc: Global) -> Result<bool, Fail> {
    let mut zone = Zone::new(alloc, 10, 2)?;
    zone.reserve(1)?;
    let first = zone.take_promised();
    Ok(first == 10 && zone.logged() == 1)
}

#[tactic(auto, using(f2_space::proofs::Sets::sets))]
fn a_drawn_block_is_written(alloc: Global) -> Result<bool, Fail> {
    let mut zone = Zone::new(alloc, 37, 2)?;
    let at = zone.draw();
    zone.wrote(at, false);
    Ok(at == 37 && zone.logged() == 1)
}

#[tactic(auto, using(f2_space::proofs::Sets::sets))]
fn a_released_block_stays_used(alloc: Global) -> Result<bool, Fail> {
    let mut zone = Zone::new(alloc, 37, 2)?;
    zone.adopt(38);
    zone.release(38);
    Ok(zone.used(38) && zone.take_cp() == 37)
}

#[tactic(auto, using(f2_space::proofs::Sets::sets))]
fn a_checkpoint_begins_anew(alloc: Global) -> Result<bool, Fail> {
    let mut zone = Zone::new(alloc, 37, 2)?;
    let start = zone.start();
    zone.committed();
    Ok(start == 37 && zone.draw() == 37)
}

#[test]
fn all_of_space(rt: HostRuntime) -> Result<(), Fail> {
    assert!(rt; a_full_log_takes_no_more(rt.alloc())?);
    assert!(rt; promised_blocks_count_once(rt.alloc())?);
    assert!(rt; a_promised_block_is_taken(rt.alloc())?);
    assert!(rt; a_drawn_block_is_written(rt.alloc())?);
    assert!(rt; a_released_block_stays_used(rt.alloc())?);
    assert!(rt; a_checkpoint_begins_anew(rt.alloc())?);
    Ok(())
}
