//! The base of an image.

use crate::images::{
    Bound, FILE, FileAt, NAMES, put, put_bare_inode, put_deep, put_file, put_names, put_table,
    small_image,
};
use f2_bytes::put16;
use f2_disk::{Disk, MemDisk};
use f2_layout::Geometry;
use f2_model::Kind;
use f2_nat_block::Bitmap;
use f2_recover::{BadImage, MountFault, Walk, read_base};
use std::alloc::Global;
use std::test::Fail;

/// The base of an image of 128 blocks.
pub(crate) fn base_of(alloc: Global, disk: &mut MemDisk) -> Result<Result<Walk, MountFault>, Fail> {
    let geometry = Geometry::new(128, 1)?;
    if geometry.blocks() > disk.blocks() || disk.blocks() < 4 {
        return Err(Fail::from("no image"));
    }
    let mut summary = [0; 4096];
    disk.read(3, &mut summary).map_err(|_| "no summary")?;
    Ok(read_base(alloc, disk, &geometry, &Bitmap::new(), &summary))
}

fn a_base_is_read(alloc: Global) -> Result<bool, Fail> {
    let mut disk = small_image(alloc)?;
    let walk = base_of(alloc, &mut disk)?.map_err(|_| "no base")?;
    let file = walk.rows.get(4).ok_or("no file")?;
    let below = walk.rows.get(7).ok_or("no file below")?;
    let mut holds = file.file.nodes.pages.get(923) == Some(41);
    holds &= file.file.nodes.nids.get(1) == Some(6);
    holds &= below.parent == 5 && below.depth == 2;
    Ok(holds)
}

/// What is wrong with an image.
#[derive(Clone, Copy)]
enum Flaw {
    SharedPage,
    UnreachedNid,
    NodeNowhere,
    PageOutside,
    NamedTwice,
    OneName,
    OtherKind,
    TooLow,
    BadName,
    PastSize,
    WrongInode,
    WrongDentry,
    LongJournal,
    RootFile,
    TooDeep,
}

/// Each flaw, and what is told of it.
const FLAWS: [(Flaw, BadImage); 15] = [
    (Flaw::SharedPage, BadImage::Shared { at: 40 }),
    (Flaw::UnreachedNid, BadImage::BadNat { nid: 9 }),
    (Flaw::NodeNowhere, BadImage::BadNat { nid: 7 }),
    (Flaw::PageOutside, BadImage::OutOfZone { at: 12 }),
    (Flaw::NamedTwice, BadImage::BadTree { ino: 4 }),
    (Flaw::OneName, BadImage::BadTree { ino: 5 }),
    (Flaw::OtherKind, BadImage::BadTree { ino: 5 }),
    (Flaw::TooLow, BadImage::BadTree { ino: 2 }),
    (Flaw::BadName, BadImage::BadTree { ino: 5 }),
    (Flaw::PastSize, BadImage::BadTree { ino: 4 }),
    (Flaw::WrongInode, BadImage::BadInode { at: 11 }),
    (Flaw::WrongDentry, BadImage::DentFault { at: 42 }),
    (Flaw::LongJournal, BadImage::Journal { count: 39 }),
    (Flaw::RootFile, BadImage::BadTree { ino: 3 }),
    (Flaw::TooDeep, BadImage::BadTree { ino: 19 }),
];

/// Puts a flaw into the small image.
fn spoil(alloc: Global, disk: &mut MemDisk, flaw: Flaw) -> Result<(), Fail> {
    match flaw {
        Flaw::SharedPage => put_file(
            disk,
            FileAt {
                pages: [40, 40],
                ..FILE
            },
        ),
        Flaw::PageOutside => put_file(
            disk,
            FileAt {
                pages: [12, 0],
                ..FILE
            },
        ),
        Flaw::PastSize => put_file(
            disk,
            FileAt {
                size: 923 * 4096,
                ..FILE
            },
        ),
        Flaw::UnreachedNid => put_table(
            disk,
            &[(3, 10), (4, 11), (6, 12), (5, 13), (7, 14), (9, 15)],
        ),
        Flaw::NodeNowhere => put_table(disk, &[(3, 10), (4, 11), (6, 12), (5, 13)]),
        Flaw::WrongInode => put_bare_inode(disk, 11, 4),
        Flaw::WrongDentry => put(disk, 42, &[1; 4096]),
        Flaw::LongJournal => {
            let mut summary = [0; 4096];
            put16(&mut summary, 3584, 39);
            put(disk, 3, &summary)
        }
        Flaw::RootFile => put_file(
            disk,
            FileAt {
                at: 10,
                ino: 3,
                size: 0,
                pages: [0, 0],
                direct: 0,
                ..FILE
            },
        ),
        Flaw::TooDeep => put_deep(alloc, disk),
        other => misname(alloc, disk, other),
    }
}

/// Puts a wrong name into the root.
fn misname(alloc: Global, disk: &mut MemDisk, flaw: Flaw) -> Result<(), Fail> {
    let mut names = NAMES;
    names[1] = match flaw {
        Flaw::NamedTwice => Bound {
            name: b"d",
            ino: 4,
            kind: Kind::Regular,
        },
        Flaw::OneName => Bound {
            name: b"a",
            ino: 5,
            kind: Kind::Directory,
        },
        Flaw::OtherKind => Bound {
            name: b"d",
            ino: 5,
            kind: Kind::Regular,
        },
        Flaw::TooLow => Bound {
            name: b"d",
            ino: 2,
            kind: Kind::Regular,
        },
        _ => Bound {
            name: b".",
            ino: 5,
            kind: Kind::Directory,
        },
    };
    put_names(alloc, disk, 39, names)
}

/// Whether an image with this flaw is refused by that.
fn is_told(alloc: Global, flaw: Flaw, told: BadImage) -> Result<bool, Fail> {
    let mut disk = small_image(alloc)?;
    spoil(alloc, &mut disk, flaw)?;
    match base_of(alloc, &mut disk)? {
        Err(MountFault::Bad(bad)) => Ok(bad == told),
        _ => Ok(false),
    }
}

fn each_flaw_is_told(alloc: Global) -> Result<bool, Fail> {
    let mut holds = true;
    for (flaw, told) in FLAWS {
        holds &= is_told(alloc, flaw, told)?;
    }
    Ok(holds)
}

#[test]
fn all_of_base(rt: HostRuntime) -> Result<(), Fail> {
    assert!(rt; a_base_is_read(rt.alloc())?);
    assert!(rt; each_flaw_is_told(rt.alloc())?);
    Ok(())
}
