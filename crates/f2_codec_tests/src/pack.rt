//! Packs that are written, read and chosen from.

use f2_bytes::{Block, put32, seal};
use f2_disk::{Bench, CallKind, Disk, MemBench, ReadFault};
use f2_layout::Geometry;
use f2_nat_block::Bitmap;
use f2_pack::{Head, NoCheckpoint, Pack, Side, newest, read_pack, write_head};
use std::alloc::Global;
use std::test::Fail;

/// The head of version 7 whose node log begins at block 20, in which the second copy of block 9 counts.
fn head() -> Head {
    let mut bitmap = Bitmap::new();
    bitmap.flip(9);
    Head {
        version: 7,
        log_start: 20,
        flags: 0,
        bitmap,
    }
}

/// Writes this block where the disk has it.
fn put<D: Disk>(disk: &mut D, at: u32, block: &Block) -> bool {
    at < disk.blocks() && disk.write(at, block).is_ok()
}

fn a_head_has_its_bytes() -> Result<bool, Fail> {
    let mut holds = true;
    let mut block = [9; 4096];
    write_head(&mut block, &head(), 1);
    let fields = [7, 0, 0, 0, 0, 0, 0, 0, 1, 0, 0, 0, 20, 0, 0, 0, 0, 0, 0, 0];
    holds &= &block[..20] == fields.as_slice();
    holds &= &block[64..67] == [0, 0x40, 0].as_slice();
    holds &= &block[4092..] == seal(&block).to_le_bytes().as_slice();
    Ok(holds)
}

fn a_valid_pack_is_read(alloc: Global) -> Result<bool, Fail> {
    let mut holds = true;
    let g = Geometry::new(128, 1)?;
    let mut disk = MemBench::new(alloc)?;
    disk.start(128)?;
    disk.ready(3)?;
    let mut block = [0; 4096];
    write_head(&mut block, &head(), 1);
    holds &= put(&mut disk, 5, &block)
        && put(&mut disk, 6, &[3; 4096])
        && put(&mut disk, 7, &block);
    if g.blocks() > disk.blocks() {
        return Ok(false);
    }
    let read = read_pack(alloc, &mut disk, &g, Side::B)?;
    let pack = read.ok_or("no pack")?;
    holds &= pack.head == head();
    holds &= pack.summary[4095] == 3;
    holds &= read_pack(alloc, &mut disk, &g, Side::A)?.is_none();
    disk.fail_at(CallKind::Read, 1);
    let failed = read_pack(alloc, &mut disk, &g, Side::B);
    holds &= matches!(failed, Err(ReadFault::Read));
    Ok(holds)
}

fn a_pack_that_is_not_valid_is_none(alloc: Global) -> Result<bool, Fail> {
    let mut holds = true;
    let g = Geometry::new(128, 1)?;
    let right = head();
    // a version of 0, another table, a log outside of the node zone, a wrong seal, another tail
    let cases = [
        (
            Head {
                version: 0,
                ..right
            },
            1,
            0,
            0,
        ),
        (right, 2, 0, 0),
        (
            Head {
                log_start: 9,
                ..right
            },
            1,
            0,
            0,
        ),
        (
            Head {
                log_start: 37,
                ..right
            },
            1,
            0,
            0,
        ),
        (right, 1, 1, 1),
        (right, 1, 0, 1),
    ];
    for (head, nat, in_head, in_tail) in cases {
        let mut disk = MemBench::new(alloc)?;
        disk.start(128)?;
        disk.ready(2)?;
        let mut block = [0; 4096];
        write_head(&mut block, &head, nat);
        put32(&mut block, 200, in_head);
        holds &= put(&mut disk, 2, &block);
        put32(&mut block, 200, in_tail);
        holds &= put(&mut disk, 4, &block);
        if g.blocks() > disk.blocks() {
            return Ok(false);
        }
        holds &= read_pack(alloc, &mut disk, &g, Side::A)?.is_none();
    }
    Ok(holds)
}

/// A pack of this version.
fn pack(version: u64) -> Pack {
    Pack {
        head: Head { version, ..head() },
        summary: [0; 4096],
    }
}

#[test]
fn the_greater_version_is_the_newest(rt: HostRuntime) -> Result<(), Fail> {
    let cases = [
        (Some(4), Some(5), Some((5, Side::B))),
        (Some(5), Some(4), Some((5, Side::A))),
        (Some(5), Some(5), Some((5, Side::A))),
        (None, Some(1), Some((1, Side::B))),
        (Some(1), None, Some((1, Side::A))),
        (None, None, None),
    ];
    for (a, b, wanted) in cases {
        let chosen = newest(
            a.map(|version| pack(version)),
            b.map(|version| pack(version)),
        );
        let named = chosen.map(|(pack, side)| (pack.head.version, side));
        assert_eq!(rt; named, wanted.ok_or(NoCheckpoint));
    }
    Ok(())
}

#[test]
fn all_of_pack(rt: HostRuntime) -> Result<(), Fail> {
    assert!(rt; a_head_has_its_bytes()?);
    assert!(rt; a_valid_pack_is_read(rt.alloc())?);
    assert!(rt; a_pack_that_is_not_valid_is_none(rt.alloc())?);
    Ok(())
}
