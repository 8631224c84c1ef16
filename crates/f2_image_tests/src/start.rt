//! The superblock and the newest pack of an image.

use crate::images::{put_head, small_image};
use f2_bytes::get32;
use f2_disk::{Disk, MemDisk};
use f2_pack::Side;
use f2_recover::{BadImage, MountFault};
use f2_start::{Start, read_start, recovery_version};
use std::alloc::Global;
use std::test::Fail;

fn start_of(alloc: Global, disk: &mut MemDisk) -> Result<Start, Fail> {
    Ok(read_start(alloc, disk).map_err(|_| "no checkpoint")?)
}

fn a_start_is_read(alloc: Global) -> Result<bool, Fail> {
    let mut disk = small_image(alloc)?;
    let start = start_of(alloc, &mut disk)?;
    let mut holds = start.side == Side::A && start.geometry.blocks() == 128;
    holds &= start.pack.head.version == 7 && start.pack.head.log_start == 20;
    holds &= recovery_version(&start.pack.head, 1) == 7;
    Ok(holds)
}

fn the_newer_pack_counts(alloc: Global) -> Result<bool, Fail> {
    let mut disk = small_image(alloc)?;
    put_head(&mut disk, Side::B, 8, 1)?;
    let start = start_of(alloc, &mut disk)?;
    Ok(start.side == Side::B && start.pack.head.version == 8)
}

/// In the newer format the log's blocks carry the seal of the head as well.
fn the_seal_counts(alloc: Global) -> Result<bool, Fail> {
    let mut disk = small_image(alloc)?;
    put_head(&mut disk, Side::B, 8, 1)?;
    let start = start_of(alloc, &mut disk)?;
    let mut head = [0; 4096];
    if disk.blocks() < 6 {
        return Ok(false);
    }
    disk.read(5, &mut head).map_err(|_| "no head")?;
    let seal = u64::from(get32(&head, 4092));
    Ok(recovery_version(&start.pack.head, 1) == 8 + (seal << 32))
}

fn a_blank_disk_has_no_sizes(alloc: Global) -> Result<bool, Fail> {
    let mut disk = MemDisk::new(alloc, 128)?;
    let told = MountFault::Bad(BadImage::BadSuper);
    Ok(read_start(alloc, &mut disk).err() == Some(told))
}

#[test]
fn all_of_start(rt: HostRuntime) -> Result<(), Fail> {
    assert!(rt; a_start_is_read(rt.alloc())?);
    assert!(rt; the_newer_pack_counts(rt.alloc())?);
    assert!(rt; the_seal_counts(rt.alloc())?);
    assert!(rt; a_blank_disk_has_no_sizes(rt.alloc())?);
    Ok(())
}
