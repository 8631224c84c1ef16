//! Entries of the node address table that are read, changed and written.

ghost use Rattle.std.specs.Prelude.{◌+◌, ◌≤◌, IfOk, OnOk};
ghost use Rattle.f2_leaf_tests.specs.NatCaches.{IsHeld, IsReady};

use f2_disk::{Disk, MemDisk};
use f2_layout::Geometry;
use f2_nat_block::{Bitmap, NatEntry, entry, set};
use f2_nat_cache::{Cache, CpNat};
use f2_nat_journal::Journal;
use std::alloc::Global;
use std::test::Fail;

const OLD: NatEntry = NatEntry { ino: 4, addr: 90 };

const NEW: NatEntry = NatEntry { ino: 4, addr: 91 };

/// A disk on which nid 9 has the old entry, and the table of its one block, in whose journal nothing stands.
fn begun(alloc: Global) -> Result<(Cache, MemDisk), Fail>
    ensures { IfOk result (λ both. IsReady both.0 both.1) }
{
    let mut disk = MemDisk::new(alloc, 128)?;
    let mut block = [0; 4096];
    set(&mut block, 9, OLD);
    disk.write(8, &block)?;
    let geometry = Geometry::new(128, 1)?;
    let cache = Cache::new(alloc, &geometry, Bitmap::new(), Journal::new(), 1)?;
    Ok((cache, disk))
}

/// The table with its block held.
fn held(alloc: Global) -> Result<Cache, Fail>
    ensures { IfOk result IsHeld }
{
    let (mut cache, mut disk) = begun(alloc)?;
    cache.hold(&mut disk, 0)?;
    Ok(cache)
}

/// Gives so many nids from the first on the new entry.
fn change(cache: &mut Cache, first: u32, count: u32) -> Result<(), Fail>
    requires held { IsHeld cache.old }
    requires nids { first + count ≤ 455 }
    ensures { OnOk result (IsHeld cache.new) }
{
    for nid in first..first + count {
        cache.put(nid, NEW)?;
    }
    Ok(())
}

/// The table after a checkpoint of 38 nids, all of which went into the journal.
fn journaled(alloc: Global) -> Result<Cache, Fail>
    ensures { IfOk result IsHeld }
{
    let mut cache = held(alloc)?;
    change(&mut cache, 10, 38)?;
    cache.committed();
    Ok(cache)
}

fn an_entry_is_read_and_put(alloc: Global) -> Result<bool, Fail> {
    let (mut cache, mut disk) = begun(alloc)?;
    let old = cache.get(&mut disk, 9)?;
    cache.put(9, NEW)?;
    let new = cache.get(&mut disk, 9)?;
    Ok((old, new) == (OLD, NEW))
}

fn a_held_block_is_written_with_what_was_put(alloc: Global) -> Result<bool, Fail> {
    let mut cache = held(alloc)?;
    cache.room(1)?;
    cache.put_ready(10, NEW);
    let mut block = [0; 4096];
    cache.block(0, &mut block);
    Ok((entry(&block, 9), entry(&block, 10)) == (OLD, NEW))
}

fn a_full_journal_takes_its_own_nids(alloc: Global) -> Result<bool, Fail> {
    let mut cache = journaled(alloc)?;
    let clean = cache.plan();
    change(&mut cache, 10, 1)?;
    let full = CpNat {
        journal: 38,
        blocks: 0,
    };
    Ok((clean, cache.plan()) == (full, full) && cache.sets()?.as_slice() == [(0, 1)].as_slice())
}

fn another_nid_has_its_block_written(alloc: Global) -> Result<bool, Fail> {
    let mut cache = journaled(alloc)?;
    change(&mut cache, 10, 1)?;
    change(&mut cache, 100, 1)?;
    let plan = cache.plan();
    let written = CpNat {
        journal: 0,
        blocks: 1,
    };
    Ok(plan == written && cache.bitmap().get(0) && cache.journal().find(10).is_none())
}

fn what_was_written_is_held(alloc: Global) -> Result<bool, Fail> {
    let mut cache = journaled(alloc)?;
    change(&mut cache, 100, 1)?;
    cache.committed();
    let mut block = [0; 4096];
    cache.block(0, &mut block);
    let nothing = CpNat {
        journal: 0,
        blocks: 0,
    };
    Ok(cache.plan() == nothing && entry(&block, 10) == NEW && entry(&block, 100) == NEW)
}

#[test]
fn all_of_nat_cache(rt: HostRuntime) -> Result<(), Fail> {
    assert!(rt; an_entry_is_read_and_put(rt.alloc())?);
    assert!(rt; a_held_block_is_written_with_what_was_put(rt.alloc())?);
    assert!(rt; a_full_journal_takes_its_own_nids(rt.alloc())?);
    assert!(rt; another_nid_has_its_block_written(rt.alloc())?);
    assert!(rt; what_was_written_is_held(rt.alloc())?);
    Ok(())
}
