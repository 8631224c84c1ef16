//! The tree of an image, with its node log rolled forward.

use crate::images::{put_head, put_table, small_image};
use crate::logs::{AGAIN, InodeAt, NEW, NodeAt, put_inode, put_node};
use f2_disk::MemDisk;
use f2_found::Found;
use f2_model::{Kind, Name};
use f2_mount::recover_image;
use f2_pack::Side;
use f2_recover::{BadImage, MountFault};
use std::alloc::Global;
use std::test::Fail;

/// The first direct node of file 4 in the log, with page 923 in a block.
fn direct(at: u32, page: u32) -> NodeAt {
    NodeAt {
        at,
        nid: 6,
        offset: 1,
        words: [page, 0, 0],
    }
}

/// The small image with a log: file 4 is written anew, its direct node before its inode; `/d/n` is new; and a direct node of
/// file 4 comes after its last mark.
pub(crate) fn image_with_log(alloc: Global) -> Result<MemDisk, Fail> {
    let mut disk = small_image(alloc)?;
    put_node(&mut disk, direct(20, 43))?;
    put_inode(&mut disk, InodeAt { at: 21, ..AGAIN })?;
    put_inode(&mut disk, InodeAt { at: 22, ..NEW })?;
    put_node(&mut disk, direct(23, 45))?;
    Ok(disk)
}

/// Whether a directory binds a name to a regular file.
fn binds(alloc: Global, tree: &Found, directory: u32, name: &[u8], ino: u32) -> Result<bool, Fail> {
    let name = Name::from_slice(alloc, name)?;
    let names = tree.names.get(directory).ok_or("no directory")?;
    Ok(names.get(&name) == Some((ino, Kind::Regular)))
}

/// Whether a file has one page in its inode and one in its first direct node, at these addresses.
fn has_pages(tree: &Found, ino: u32, first: u32, second: u32) -> bool {
    let Some(row) = tree.rows.get(ino) else {
        return false;
    };
    match row.pages.as_slice() {
        [one, other] => {
            one.page == 0 && one.at == first && other.page == 923 && other.at == second
        }
        _ => false,
    }
}

fn a_log_is_rolled_forward(alloc: Global) -> Result<bool, Fail> {
    let mut disk = image_with_log(alloc)?;
    let recovered = recover_image(alloc, &mut disk).map_err(|_| "no tree")?;
    let tree = &recovered.tree;
    let mut holds = recovered.marks == 2 && recovered.version == 7;
    holds &= has_pages(tree, 4, 44, 43);
    holds &= binds(alloc, tree, 3, b"a", 4)? && !binds(alloc, tree, 3, b"x", 4)?;
    holds &= binds(alloc, tree, 5, b"b", 7)? && binds(alloc, tree, 5, b"n", 8)?;
    Ok(holds)
}

fn an_image_without_log_is_its_base(alloc: Global) -> Result<bool, Fail> {
    let mut disk = small_image(alloc)?;
    let recovered = recover_image(alloc, &mut disk).map_err(|_| "no tree")?;
    let tree = &recovered.tree;
    let mut holds = recovered.marks == 0 && has_pages(tree, 4, 40, 41);
    holds &= !binds(alloc, tree, 5, b"n", 8)?;
    Ok(holds)
}

/// What is wrong with an image that has a log.
#[derive(Clone, Copy)]
enum Flaw {
    BoundInBase,
    BoundTwice,
    NoDirectory,
    NoDentryMark,
    MarkedDirectory,
    BadName,
    PastSize,
    TakenNid,
    LastVersion,
    ManyNodes,
    ManyBlocks,
    ManyOfMarks,
    ManyNodesOfBase,
    ManyBlocksOfBase,
}

/// Each flaw, and what is told of it. A third of the small image's node zone are 9 blocks, of its data zone 30.
const FLAWS: [(Flaw, BadImage); 14] = [
    (Flaw::BoundInBase, BadImage::Conflict { ino: 8 }),
    (Flaw::BoundTwice, BadImage::Conflict { ino: 9 }),
    (Flaw::NoDirectory, BadImage::NoParent { ino: 8 }),
    (Flaw::NoDentryMark, BadImage::BadTree { ino: 8 }),
    (Flaw::MarkedDirectory, BadImage::BadTree { ino: 5 }),
    (Flaw::BadName, BadImage::BadTree { ino: 8 }),
    (Flaw::PastSize, BadImage::BadTree { ino: 4 }),
    (Flaw::TakenNid, BadImage::BadNat { nid: 6 }),
    (
        Flaw::LastVersion,
        BadImage::VersionEnd {
            version: 4_000_000_001,
        },
    ),
    (Flaw::ManyNodes, BadImage::TooFull { limit: 9 }),
    (Flaw::ManyBlocks, BadImage::TooFull { limit: 30 }),
    (Flaw::ManyOfMarks, BadImage::TooFull { limit: 60 }),
    (Flaw::ManyNodesOfBase, BadImage::TooFull { limit: 9 }),
    (Flaw::ManyBlocksOfBase, BadImage::TooFull { limit: 30 }),
];

/// The inode that has a flaw by itself.
fn flawed(flaw: Flaw) -> Option<InodeAt> {
    match flaw {
        Flaw::BoundInBase => Some(InodeAt { name: b"b", ..NEW }),
        Flaw::NoDirectory => Some(InodeAt { parent: 9, ..NEW }),
        Flaw::NoDentryMark => Some(InodeAt { dent: false, ..NEW }),
        Flaw::MarkedDirectory => Some(InodeAt {
            ino: 5,
            kind: Kind::Directory,
            ..NEW
        }),
        Flaw::BadName => Some(InodeAt { name: b".", ..NEW }),
        Flaw::PastSize => Some(InodeAt { size: 0, ..AGAIN }),
        Flaw::TakenNid => Some(InodeAt { ino: 6, ..NEW }),
        Flaw::ManyBlocks => Some(InodeAt { pages: 28, ..AGAIN }),
        _ => None,
    }
}

/// Puts a flaw into the small image.
fn spoil(disk: &mut MemDisk, flaw: Flaw) -> Result<(), Fail> {
    if let Some(inode) = flawed(flaw) {
        return put_inode(disk, inode);
    }
    match flaw {
        Flaw::BoundTwice => {
            put_inode(disk, NEW)?;
            put_inode(
                disk,
                InodeAt {
                    at: 21,
                    ino: 9,
                    ..NEW
                },
            )
        }
        Flaw::LastVersion => put_head(disk, Side::A, 4_000_000_001, 0),
        Flaw::ManyNodes => put_new_files(disk),
        Flaw::ManyOfMarks => {
            put_inode(disk, InodeAt { pages: 29, ..AGAIN })?;
            put_inode(
                disk,
                InodeAt {
                    at: 21,
                    first: 73,
                    pages: 29,
                    ..AGAIN
                },
            )
        }
        Flaw::ManyNodesOfBase => put_tall_file(disk),
        _ => put_inode(
            disk,
            InodeAt {
                at: 11,
                pages: 29,
                ..AGAIN
            },
        ),
    }
}

/// Writes five new files into the log.
fn put_new_files(disk: &mut MemDisk) -> Result<(), Fail> {
    let files: [(u32, u32, &'static [u8]); 5] = [
        (20, 8, b"p"),
        (21, 9, b"q"),
        (22, 10, b"r"),
        (23, 11, b"s"),
        (24, 12, b"t"),
    ];
    for (at, ino, name) in files {
        put_inode(
            disk,
            InodeAt {
                at,
                ino,
                name,
                ..NEW
            },
        )?;
    }
    Ok(())
}

/// Gives file 4 five more nodes, above no page.
fn put_tall_file(disk: &mut MemDisk) -> Result<(), Fail> {
    put_inode(
        disk,
        InodeAt {
            at: 11,
            first: 40,
            nids: [6, 9, 10, 0, 0],
            ..AGAIN
        },
    )?;
    let nodes = [
        (15, 9, 2, [0; 3]),
        (16, 10, 3, [11, 12, 13]),
        (17, 11, 4, [0; 3]),
        (18, 12, 5, [0; 3]),
        (19, 13, 6, [0; 3]),
    ];
    for (at, nid, offset, words) in nodes {
        put_node(
            disk,
            NodeAt {
                at,
                nid,
                offset,
                words,
            },
        )?;
    }
    put_table(
        disk,
        &[
            (3, 10),
            (4, 11),
            (6, 12),
            (5, 13),
            (7, 14),
            (9, 15),
            (10, 16),
            (11, 17),
            (12, 18),
            (13, 19),
        ],
    )
}

/// Whether an image with this flaw is refused by that.
fn is_told(alloc: Global, flaw: Flaw, told: BadImage) -> Result<bool, Fail> {
    let mut disk = small_image(alloc)?;
    spoil(&mut disk, flaw)?;
    match recover_image(alloc, &mut disk) {
        Err(MountFault::Bad(bad)) => Ok(bad == told),
        _ => Ok(false),
    }
}

fn each_flaw_is_told(alloc: Global) -> Result<bool, Fail> {
    let mut holds = true;
    for (flaw, told) in FLAWS {
        holds &= is_told(alloc, flaw, told)?;
    }
    Ok(holds)
}

#[test]
fn all_of_recovered(rt: HostRuntime) -> Result<(), Fail> {
    assert!(rt; an_image_without_log_is_its_base(rt.alloc())?);
    assert!(rt; a_log_is_rolled_forward(rt.alloc())?);
    assert!(rt; each_flaw_is_told(rt.alloc())?);
    Ok(())
}
