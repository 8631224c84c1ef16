//! Images that are made. That they are saved to is run by the scripts of the top call.
ghost use Rattle.std.specs.Prelude.{◌≤◌, length};

use f2_disk::{Bench, CallKind, Disk, MemBench};
use f2_layout::{Geometry, read_super};
use f2_pack::{Side, newest, read_pack};
use f2_plain_save::{SaveFault, mkfs};
use std::alloc::Global;
use std::test::Fail;

/// A bench of 128 blocks with room for as many writes.
fn bench(alloc: Global) -> Result<MemBench, Fail> {
    let mut disk = MemBench::new(alloc)?;
    disk.start(128)?;
    disk.ready(128)?;
    Ok(disk)
}

/// The version and the side of the newest pack.
fn newest_of(alloc: Global, disk: &mut MemBench, geometry: &Geometry) -> Result<(u64, Side), Fail>
    requires { geometry.now.blocks ≤ length disk.old.lists }
{
    let a = read_pack(alloc, disk, geometry, Side::A)?;
    let b = read_pack(alloc, disk, geometry, Side::B)?;
    let (pack, side) = newest(a, b)?;
    Ok((pack.head.version, side))
}

fn a_new_image_has_version_1(alloc: Global) -> Result<bool, Fail> {
    let g = Geometry::new(128, 1)?;
    let mut disk = bench(alloc)?;
    if g.blocks() > disk.blocks() {
        return Ok(false);
    }
    mkfs(alloc, &mut disk, g)?;
    Ok(newest_of(alloc, &mut disk, &g)? == (1, Side::A))
}

fn a_new_image_has_a_second_superblock(alloc: Global) -> Result<bool, Fail> {
    let g = Geometry::new(128, 1)?;
    let mut disk = bench(alloc)?;
    if g.blocks() > disk.blocks() {
        return Ok(false);
    }
    mkfs(alloc, &mut disk, g)?;
    let mut block = [7; 4096];
    disk.read(1, &mut block)?;
    Ok(read_super(&block, 128) == Ok(g))
}

fn a_flush_that_fails_is_a_fault(alloc: Global) -> Result<bool, Fail> {
    let g = Geometry::new(128, 1)?;
    let mut disk = bench(alloc)?;
    disk.fail_at(CallKind::Flush, 3);
    if g.blocks() > disk.blocks() {
        return Ok(false);
    }
    Ok(matches!(mkfs(alloc, &mut disk, g), Err(SaveFault::Write)))
}

#[test]
fn all_of_plain_save(rt: HostRuntime) -> Result<(), Fail> {
    assert!(rt; a_new_image_has_version_1(rt.alloc())?);
    assert!(rt; a_new_image_has_a_second_superblock(rt.alloc())?);
    assert!(rt; a_flush_that_fails_is_a_fault(rt.alloc())?);
    Ok(())
}
