//! Positions of the node log that are reserved, submitted and told as gaps.

ghost use Rattle.std.specs.Prelude.{IfOk};
ghost use Rattle.f2_warm_log.specs.Log.{IsOpen};
ghost use Rattle.f2_leaf_tests.specs.WarmLogs.{IsReady};

use f2_disk::{Disk, MemDisk};
use f2_space::Zone;
use f2_warm_log::{Slot, WarmLog};
use std::alloc::{AllocError, Global};
use std::test::Fail;

/// A zone of 12 addresses from 10 on, and its log.
#[tactic(auto, using(f2_space::proofs::Sets::sets))]
fn begun(alloc: Global) -> Result<(Zone, WarmLog), AllocError>
    ensures { IfOk result (λ both. IsReady both.0 both.1) }
{
    let mut zone = Zone::new(alloc, 10, 4)?;
    let start = zone.draw();
    let mut log = WarmLog::new(alloc, start, 7);
    log.room(4)?;
    Ok((zone, log))
}

/// Reserves a position that nobody promised.
fn take(zone: &mut Zone, log: &mut WarmLog) -> Result<Slot, Fail>
    requires { IsReady zone.old log.old }
    ensures { IfOk result (IsOpen log.new) }
{
    Ok(log.reserve(zone, false).ok_or("no position")?)
}

/// Writes a block of this byte at a slot.
fn put(log: &mut WarmLog, disk: &mut MemDisk, slot: Slot, byte: u8) -> Result<(), Fail>
    requires { IsOpen log.old slot }
{
    if slot.at < disk.blocks() {
        log.submit(disk, slot, &mut [byte; 4096])?;
    }
    Ok(())
}

fn a_position_is_reserved_and_submitted(alloc: Global) -> Result<bool, Fail> {
    let (mut zone, mut log) = begun(alloc)?;
    let mut disk = MemDisk::new(alloc, 22)?;
    let slot = take(&mut zone, &mut log)?;
    let gap = log.first_gap();
    put(&mut log, &mut disk, slot, 9)?;
    Ok(
        (slot.at, slot.next, slot.position) == (10, 11, 0)
            && (gap, log.first_gap()) == (Some(0), None),
    )
}

fn a_restarted_log_is_new(alloc: Global) -> Result<bool, Fail> {
    let (_, mut log) = begun(alloc)?;
    log.restart(15, 8);
    Ok((log.reserved(), log.next(), log.version()) == (0, 15, 8))
}

#[test]
fn all_of_warm_log(rt: HostRuntime) -> Result<(), Fail> {
    assert!(rt; a_position_is_reserved_and_submitted(rt.alloc())?);
    assert!(rt; a_restarted_log_is_new(rt.alloc())?);
    Ok(())
}
