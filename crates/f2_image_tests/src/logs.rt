//! Blocks of a node log, and other nodes, written by the codecs.

use crate::images::put;
use f2_disk::MemDisk;
use f2_footer::Footer;
use f2_model::Kind;
use f2_node_block::{Inode, write_inode, write_word};
use std::test::Fail;

/// The version that the log of the small image has.
const VERSION: u64 = 7;

/// An inode, whose pages stand one behind another.
#[derive(Clone, Copy)]
pub(crate) struct InodeAt {
    pub at: u32,
    pub ino: u32,
    pub kind: Kind,
    pub size: u64,
    /// The address of its first page.
    pub first: u32,
    pub pages: u32,
    pub nids: [u32; 5],
    pub parent: u32,
    pub name: &'static [u8],
    pub fsync: bool,
    pub dent: bool,
}

/// A new file `/d/n`, as an fsync writes it.
pub(crate) const NEW: InodeAt = InodeAt {
    at: 20,
    ino: 8,
    kind: Kind::Regular,
    size: 0,
    first: 0,
    pages: 0,
    nids: [0; 5],
    parent: 5,
    name: b"n",
    fsync: true,
    dent: true,
};

/// File 4 of the small image with one page of its inode anew, as an fsync writes it. Its name there isn't the one that it has.
pub(crate) const AGAIN: InodeAt = InodeAt {
    at: 20,
    ino: 4,
    kind: Kind::Regular,
    size: 924 * 4096,
    first: 44,
    pages: 1,
    nids: [6, 0, 0, 0, 0],
    parent: 3,
    name: b"x",
    fsync: true,
    dent: false,
};

/// The addresses of pages that stand one behind another.
fn addresses(first: u32, pages: u32) -> [u32; 923] {
    let mut addr = [0; 923];
    for page in 0..923u32 {
        if page < pages {
            addr[page as usize] = first.wrapping_add(page);
        }
    }
    addr
}

/// Writes an inode as a block of the log; the next block of the log is the next one of the disk.
pub(crate) fn put_inode(disk: &mut MemDisk, inode: InodeAt) -> Result<(), Fail> {
    let mut name = [0; 255];
    if inode.name.len() > 255 {
        return Err(Fail::from("no name"));
    }
    name[..inode.name.len()].copy_from_slice(inode.name);
    let fields = Inode {
        kind: inode.kind,
        size: inode.size,
        pino: inode.parent,
        name_len: inode.name.len() as u8,
        name,
        addr: addresses(inode.first, inode.pages),
        nid: inode.nids,
    };
    let mut block = [0; 4096];
    write_inode(&mut block, &fields, 1);
    let footer = Footer {
        nid: inode.ino,
        ino: inode.ino,
        offset: 0,
        fsync: inode.fsync,
        dent: inode.dent,
        cp_ver: VERSION,
        next: inode.at.wrapping_add(1),
    };
    f2_footer::write(&mut block, footer);
    put(disk, inode.at, &block)
}

/// A node of file 4 other than its inode.
#[derive(Clone, Copy)]
pub(crate) struct NodeAt {
    pub at: u32,
    pub nid: u32,
    pub offset: u32,
    /// Its first three words.
    pub words: [u32; 3],
}

/// Writes a node of file 4 as a block of the log; the next block of the log is the next one of the disk.
pub(crate) fn put_node(disk: &mut MemDisk, node: NodeAt) -> Result<(), Fail> {
    let mut block = [0; 4096];
    let [first, second, third] = node.words;
    write_word(&mut block, 0, first);
    write_word(&mut block, 1, second);
    write_word(&mut block, 2, third);
    let footer = Footer {
        nid: node.nid,
        ino: 4,
        offset: node.offset % (1 << 29),
        fsync: false,
        dent: false,
        cp_ver: VERSION,
        next: node.at.wrapping_add(1),
    };
    f2_footer::write(&mut block, footer);
    put(disk, node.at, &block)
}
