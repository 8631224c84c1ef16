//! Small images, written by the codecs.

use f2_bytes::{Block, put16};
use f2_dentry_block::{Dent, pack};
use f2_disk::{Disk, MemDisk};
use f2_footer::Footer;
use f2_layout::{Geometry, write_super};
use f2_model::{Kind, Name};
use f2_nat_block::{Bitmap, NatEntry, set};
use f2_node_block::{Inode, write_inode};
use f2_pack::{Head, Side, write_head};
use f2_plain_read::{Found, ReadFault, read};
use std::alloc::Global;
use std::test::Fail;

/// Writes a block where the disk has it.
fn put(disk: &mut MemDisk, at: u32, block: &Block) -> Result<(), Fail> {
    if at >= disk.blocks() || disk.write(at, block).is_err() {
        return Err(Fail::from("no such block"));
    }
    Ok(())
}

/// Writes the inode of a file with one page.
fn put_inode(disk: &mut MemDisk, at: u32, ino: u32, kind: Kind, page: u32) -> Result<(), Fail> {
    let mut addr = [0; 923];
    addr[0] = page;
    let inode = Inode {
        kind,
        size: 4096,
        pino: 3,
        name_len: 0,
        name: [0; 255],
        addr,
        nid: [0; 5],
    };
    let footer = Footer {
        nid: ino,
        ino,
        offset: 0,
        fsync: false,
        dent: false,
        cp_ver: 0,
        next: 0,
    };
    let mut block = [0; 4096];
    write_inode(&mut block, &inode, 2);
    f2_footer::write(&mut block, footer);
    put(disk, at, &block)
}

/// Writes the pack of a side whose table counts in the first copy.
fn put_pack(disk: &mut MemDisk, side: Side, version: u64) -> Result<(), Fail> {
    let head = Head {
        version,
        log_start: 20,
        flags: 0,
        bitmap: Bitmap::new(),
    };
    let mut block = [0; 4096];
    write_head(&mut block, &head, 1);
    let (head_at, tail_at) = match side {
        Side::A => (2, 4),
        Side::B => (5, 7),
    };
    put(disk, head_at, &block)?;
    put(disk, tail_at, &block)
}

/// A disk with the root, which stands in block 10, and a file `a` in it, in block 11, which has the page 40.
fn two_files(alloc: Global, superblock: u32) -> Result<MemDisk, Fail> {
    let mut disk = MemDisk::new(alloc, 128)?;
    let mut block = [0; 4096];
    write_super(&mut block, &Geometry::new(128, 1)?);
    put(&mut disk, superblock, &block)?;
    put_pack(&mut disk, Side::A, 7)?;
    let mut table = [0; 4096];
    set(&mut table, 3, NatEntry { ino: 3, addr: 10 });
    set(&mut table, 4, NatEntry { ino: 4, addr: 11 });
    put(&mut disk, 8, &table)?;
    put_inode(&mut disk, 10, 3, Kind::Directory, 39)?;
    put_inode(&mut disk, 11, 4, Kind::Regular, 40)?;
    put_names(alloc, &mut disk)?;
    put(&mut disk, 40, &[9; 4096])?;
    Ok(disk)
}

/// Writes the name of file 4 into block 39.
fn put_names(alloc: Global, disk: &mut MemDisk) -> Result<(), Fail> {
    let dent = Dent {
        name: Name::from_slice(alloc, b"a")?,
        ino: 4,
        kind: Kind::Regular,
    };
    let blocks = pack(alloc, &[dent])?;
    put(disk, 39, blocks.first().ok_or("no block")?)
}

fn a_tree_is_read(alloc: Global) -> Result<bool, Fail> {
    let mut holds = true;
    let mut disk = two_files(alloc, 0)?;
    let Found { tree, stored } = read(alloc, &mut disk)?;
    let file = tree.get(4).ok_or("no file")?;
    holds &= file.parent == 3 && file.name.as_slice() == b"a".as_slice();
    holds &= file.pages.get(0).is_some_and(|page| page[4095] == 9);
    holds &= stored.version == 7;
    Ok(holds)
}

#[test]
fn the_second_superblock_counts(rt: HostRuntime) -> Result<(), Fail> {
    let mut disk = two_files(rt.alloc(), 1)?;
    assert!(rt; read(rt.alloc(), &mut disk).is_ok());
    Ok(())
}

#[test]
fn the_newest_pack_counts(rt: HostRuntime) -> Result<(), Fail> {
    let mut disk = two_files(rt.alloc(), 0)?;
    put_pack(&mut disk, Side::B, 8)?;
    let found = read(rt.alloc(), &mut disk)?;
    assert!(rt; found.stored.side == Side::B && found.stored.version == 8);
    Ok(())
}

#[test]
fn a_journal_is_refused(rt: HostRuntime) -> Result<(), Fail> {
    let mut disk = two_files(rt.alloc(), 0)?;
    let mut summary = [0; 4096];
    put16(&mut summary, 3584, 1);
    put(&mut disk, 3, &summary)?;
    assert!(rt; matches!(read(rt.alloc(), &mut disk), Err(ReadFault::Bad)));
    Ok(())
}

#[test]
fn a_blank_disk_has_no_tree(rt: HostRuntime) -> Result<(), Fail> {
    let mut disk = MemDisk::new(rt.alloc(), 128)?;
    assert!(rt; matches!(read(rt.alloc(), &mut disk), Err(ReadFault::Bad)));
    Ok(())
}

#[test]
fn all_of_plain_read(rt: HostRuntime) -> Result<(), Fail> {
    assert!(rt; a_tree_is_read(rt.alloc())?);
    Ok(())
}
