//! A small image, written block by block by the codecs.

ghost use Rattle.std.specs.Prelude.{◌≡◌, IfOk};
ghost use Rattle.f2_dentry_block.specs.Packed.{HasNameLength};

use f2_bytes::Block;
use f2_dentry_block::{Dent, pack};
use f2_disk::{Disk, MemDisk};
use f2_footer::Footer;
use f2_layout::{Geometry, write_super};
use f2_model::{Kind, Name};
use f2_nat_block::{Bitmap, NatEntry, set};
use f2_node_block::{Inode, write_inode, write_word};
use f2_pack::{Head, Side, write_head};
use std::alloc::Global;
use std::test::Fail;

/// Writes a block where the disk has it.
pub(crate) fn put(disk: &mut MemDisk, at: u32, block: &Block) -> Result<(), Fail> {
    if at >= disk.blocks() || disk.write(at, block).is_err() {
        return Err(Fail::from("no such block"));
    }
    Ok(())
}

/// A file, as its inode tells it.
#[derive(Clone, Copy)]
pub(crate) struct FileAt {
    pub at: u32,
    pub ino: u32,
    pub kind: Kind,
    pub size: u64,
    /// The addresses of its first page and, where it isn't 0, of page 1.
    pub pages: [u32; 2],
    /// The nid of its first direct node.
    pub direct: u32,
}

/// Writes the inode of a file.
pub(crate) fn put_file(disk: &mut MemDisk, file: FileAt) -> Result<(), Fail> {
    let mut addr = [0; 923];
    addr[0] = file.pages[0];
    addr[1] = file.pages[1];
    let inode = Inode {
        kind: file.kind,
        size: file.size,
        pino: 3,
        name_len: 0,
        name: [0; 255],
        addr,
        nid: [file.direct, 0, 0, 0, 0],
    };
    let mut block = [0; 4096];
    write_inode(&mut block, &inode, 1);
    f2_footer::write(&mut block, footer(file.ino, file.ino, 0));
    put(disk, file.at, &block)
}

/// The footer of a node that no fsync wrote.
fn footer(nid: u32, ino: u32, offset: u32) -> Footer
    ensures { result.offset ≡ offset }
{
    Footer {
        nid,
        ino,
        offset,
        fsync: false,
        dent: false,
        cp_ver: 0,
        next: 0,
    }
}

/// Writes a node that has nothing but the footer of an inode.
pub(crate) fn put_bare_inode(disk: &mut MemDisk, at: u32, ino: u32) -> Result<(), Fail> {
    let mut block = [0; 4096];
    f2_footer::write(&mut block, footer(ino, ino, 0));
    put(disk, at, &block)
}

/// Writes the first direct node of file 4, with one page.
fn put_direct(disk: &mut MemDisk) -> Result<(), Fail> {
    let mut block = [0; 4096];
    write_word(&mut block, 0, 41);
    f2_footer::write(&mut block, footer(6, 4, 1));
    put(disk, 12, &block)
}

/// A name, and what it is bound to.
#[derive(Clone, Copy)]
pub(crate) struct Bound {
    pub name: &'static [u8],
    pub ino: u32,
    pub kind: Kind,
}

/// A name as a block of a directory has it.
fn dent(alloc: Global, bound: Bound) -> Result<Dent, Fail>
    ensures { IfOk result (λ dent. HasNameLength dent.name) }
{
    if bound.name.is_empty() || bound.name.len() > 255 {
        return Err(Fail::from("no name"));
    }
    Ok(Dent {
        name: Name::from_slice(alloc, bound.name)?,
        ino: bound.ino,
        kind: bound.kind,
    })
}

/// Writes a block of a directory with one name.
fn put_name(alloc: Global, disk: &mut MemDisk, at: u32, name: Bound) -> Result<(), Fail> {
    let dents = [dent(alloc, name)?];
    let blocks = pack(alloc, &dents)?;
    put(disk, at, blocks.first().ok_or("no block")?)
}

/// Writes a block of a directory with two names.
pub(crate) fn put_names(
    alloc: Global,
    disk: &mut MemDisk,
    at: u32,
    names: [Bound; 2],
) -> Result<(), Fail> {
    let [first, second] = names;
    let dents = [dent(alloc, first)?, dent(alloc, second)?];
    let blocks = pack(alloc, &dents)?;
    put(disk, at, blocks.first().ok_or("no block")?)
}

/// Writes both copies of the node address table's block, with these nids and addresses.
pub(crate) fn put_table(disk: &mut MemDisk, entries: &[(u32, u32)]) -> Result<(), Fail> {
    let mut table = [0; 4096];
    for (nid, addr) in entries {
        if *nid >= 455 {
            return Err(Fail::from("no such nid"));
        }
        set(
            &mut table,
            *nid as u16,
            NatEntry {
                ino: 3,
                addr: *addr,
            },
        );
    }
    put(disk, 8, &table)?;
    put(disk, 9, &table)
}

/// Writes the head and the tail of a pack, with these flags.
pub(crate) fn put_head(
    disk: &mut MemDisk,
    side: Side,
    version: u64,
    flags: u32,
) -> Result<(), Fail> {
    let head = Head {
        version,
        log_start: 20,
        flags,
        bitmap: Bitmap::new(),
    };
    let mut block = [0; 4096];
    write_head(&mut block, &head, 1);
    let at = match side {
        Side::A => 2,
        Side::B => 5,
    };
    put(disk, at, &block)?;
    put(disk, at + 2, &block)
}

/// Writes the superblock and the first pack.
fn put_pack(disk: &mut MemDisk) -> Result<(), Fail> {
    let mut block = [0; 4096];
    write_super(&mut block, &Geometry::new(128, 1)?);
    put(disk, 0, &block)?;
    put_head(disk, Side::A, 7, 0)
}

/// File 4, with its pages 0 and 923 in blocks 40 and 41.
pub(crate) const FILE: FileAt = FileAt {
    at: 11,
    ino: 4,
    kind: Kind::Regular,
    size: 924 * 4096,
    pages: [40, 0],
    direct: 6,
};

/// The names of the root.
pub(crate) const NAMES: [Bound; 2] = [
    Bound {
        name: b"a",
        ino: 4,
        kind: Kind::Regular,
    },
    Bound {
        name: b"d",
        ino: 5,
        kind: Kind::Directory,
    },
];

/// The node address table.
pub(crate) const TABLE: [(u32, u32); 5] = [(3, 10), (4, 11), (6, 12), (5, 13), (7, 14)];

/// A disk with a file `/a`, which is ino 4, a directory `/d`, ino 5, and an empty file `/d/b`, ino 7. The root's names stand
/// in block 39, those of `/d` in block 42.
pub(crate) fn small_image(alloc: Global) -> Result<MemDisk, Fail> {
    let mut disk = MemDisk::new(alloc, 128)?;
    put_pack(&mut disk)?;
    put_table(&mut disk, &TABLE)?;
    put_directories(&mut disk)?;
    put_file(&mut disk, FILE)?;
    put_direct(&mut disk)?;
    put_names(alloc, &mut disk, 39, NAMES)?;
    let below = Bound {
        name: b"b",
        ino: 7,
        kind: Kind::Regular,
    };
    put_name(alloc, &mut disk, 42, below)?;
    Ok(disk)
}

/// Writes the inodes of the root, of `/d` and of `/d/b`.
fn put_directories(disk: &mut MemDisk) -> Result<(), Fail> {
    put_file(
        disk,
        FileAt {
            at: 10,
            ino: 3,
            kind: Kind::Directory,
            size: 4096,
            pages: [39, 0],
            direct: 0,
        },
    )?;
    put_file(
        disk,
        FileAt {
            at: 13,
            ino: 5,
            kind: Kind::Directory,
            size: 4096,
            pages: [42, 0],
            direct: 0,
        },
    )?;
    put_file(
        disk,
        FileAt {
            at: 14,
            ino: 7,
            kind: Kind::Regular,
            size: 0,
            pages: [0, 0],
            direct: 0,
        },
    )
}

/// Puts sixteen directories below the root, each but the first in the one before it, from ino 4 on.
pub(crate) fn put_deep(alloc: Global, disk: &mut MemDisk) -> Result<(), Fail> {
    let mut table = [(0, 0); 17];
    for level in 0..17u32 {
        let ino = 3 + level;
        put_file(
            disk,
            FileAt {
                at: 10 + level,
                ino,
                kind: Kind::Directory,
                size: 4096,
                pages: [40 + level, 0],
                direct: 0,
            },
        )?;
        let below = Bound {
            name: b"d",
            ino: ino + 1,
            kind: Kind::Directory,
        };
        put_name(alloc, disk, 40 + level, below)?;
        table[level as usize] = (ino, 10 + level);
    }
    put_table(disk, &table)
}
