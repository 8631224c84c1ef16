//! What a volume knows of its files: rows that a mount found, and what is dirty.

use f2_blocks::Nids;
use f2_files::{Addresses, Files, RowFault, Shape};
use f2_flights::{Flight, Part, Progress};
use f2_model::{Kind, Limits, Name};
use std::alloc::{AllocError, Global};
use std::test::Fail;

const LIMITS: Limits = Limits {
    nodes: 9,
    data_blocks: 30,
    nids: 455,
    size: 1 << 20,
};

/// A file under this number, with a name of one byte, in this directory, that has one page.
fn file(
    alloc: Global,
    ino: u32,
    parent: u32,
    name: u8,
    size: u64,
    page: u32,
) -> Result<Shape, AllocError> {
    let mut pages = Addresses::new(alloc);
    pages.set(page, 700)?;
    Ok(Shape {
        ino,
        kind: Kind::Regular,
        parent,
        name: Name::from_slice(alloc, &[name])?,
        size,
        pages,
        nids: Nids::new(alloc),
    })
}

/// What joining comes to beside the root and a file 5 named `a` of two pages.
fn joined(alloc: Global, row: Shape) -> Result<Result<(), RowFault>, Fail> {
    let mut files = Files::root_alone(alloc)?;
    let first = files.add_row(LIMITS, file(alloc, 5, 3, b'a', 8192, 1)?);
    let second = files.add_row(LIMITS, row);
    Ok(first.and(second))
}

fn rows_join_or_tell_their_fault(alloc: Global) -> Result<bool, Fail> {
    let cases = [
        ((6, 3, b'b', 8192, 1), Ok(())),
        ((3, 3, b'b', 8192, 1), Err(RowFault::BadIno)),
        ((5, 3, b'b', 8192, 1), Err(RowFault::BadIno)),
        ((6, 4, b'b', 8192, 1), Err(RowFault::NoDirectory)),
        ((6, 5, b'b', 8192, 1), Err(RowFault::NoDirectory)),
        ((6, 3, b'/', 8192, 1), Err(RowFault::BadName)),
        ((6, 3, b'a', 8192, 1), Err(RowFault::NameTaken)),
        ((6, 3, b'b', 1 << 21, 1), Err(RowFault::BadSize)),
        ((6, 3, b'b', 8192, 1_057_053_439), Err(RowFault::BadPage)),
    ];
    for ((ino, parent, name, size, page), wanted) in cases {
        if joined(alloc, file(alloc, ino, parent, name, size, page)?)? != wanted {
            return Ok(false);
        }
    }
    Ok(true)
}

/// The root and a file 5 of two pages, the second of which a cut makes dirty.
fn cut(alloc: Global) -> Result<Files, Fail> {
    let mut files = Files::root_alone(alloc)?;
    let _ = files.add_row(LIMITS, file(alloc, 5, 3, b'a', 8192, 1)?);
    files.truncate(5, 5000)?;
    Ok(files)
}

fn a_page_is_dirty_until_it_is_written(alloc: Global) -> Result<bool, Fail> {
    let mut files = cut(alloc)?;
    let before = files.least_thawed_page();
    files.page_written(5, 1);
    Ok(before == Some((5, 1)) && files.is_file_clean(5) && files.is_clean())
}

fn a_file_in_fsync_is_passed(alloc: Global) -> Result<bool, Fail> {
    let mut files = cut(alloc)?;
    let progress = Progress {
        part: Part::Pages,
        place: 0,
        position: 0,
        slot: None,
    };
    files.begin(0, Flight::Fsync { ino: 5, progress })?;
    Ok(
        files.dirty_pages_of(5) == 1
            && files.least_thawed_page().is_none()
            && files.least_thawed_node().is_none(),
    )
}

fn a_cut_page_alone_is_dirty(alloc: Global) -> Result<bool, Fail> {
    let files = cut(alloc)?;
    Ok(
        files.least_dirty_page(5) == Some(1)
            && files.dirty_nodes_of(5) == 0
            && files.least_dirty_node(5).is_none(),
    )
}

/// A directory under this number, without pages.
fn directory(alloc: Global, ino: u32, parent: u32, name: u8) -> Result<Shape, AllocError> {
    Ok(Shape {
        ino,
        kind: Kind::Directory,
        parent,
        name: Name::from_slice(alloc, &[name])?,
        size: 0,
        pages: Addresses::new(alloc),
        nids: Nids::new(alloc),
    })
}

fn rows_join_from_the_root_down(alloc: Global) -> Result<bool, Fail> {
    let mut files = Files::root_alone(alloc)?;
    let upper = files.add_row(LIMITS, directory(alloc, 4, 3, b'd')?);
    let lower = files.add_row(LIMITS, file(alloc, 5, 4, b'a', 8192, 1)?);
    let names = files.names(4)?;
    Ok(upper.is_ok() && lower.is_ok() && names.len() == 1)
}

/// The addresses of a root's first pages after it took so many, where page 1 stood at 50.
fn resized(alloc: Global, blocks: u32) -> Result<(Option<u32>, Option<u32>), Fail> {
    let mut files = Files::root_alone(alloc)?;
    files.set_address(3, 1, 50)?;
    files.resize_directory(3, blocks)?;
    Ok((files.address(3, 0), files.address(3, 1)))
}

fn a_directory_has_its_first_pages(alloc: Global) -> Result<bool, Fail> {
    let cases = [
        (0, (None, None)),
        (1, (Some(0), None)),
        (2, (Some(0), Some(50))),
    ];
    for (blocks, wanted) in cases {
        if resized(alloc, blocks)? != wanted {
            return Ok(false);
        }
    }
    Ok(true)
}

fn a_nid_is_forgotten(alloc: Global) -> Result<bool, Fail> {
    let mut files = Files::root_alone(alloc)?;
    files.set_nid(3, 0, 77)?;
    let taken = files.forget_nid(3, 0);
    Ok(taken == Some(77) && files.nid(3, 0).is_none())
}

#[test]
fn all_of_files(rt: HostRuntime) -> Result<(), Fail> {
    assert!(rt; rows_join_or_tell_their_fault(rt.alloc())?);
    assert!(rt; rows_join_from_the_root_down(rt.alloc())?);
    assert!(rt; a_page_is_dirty_until_it_is_written(rt.alloc())?);
    assert!(rt; a_cut_page_alone_is_dirty(rt.alloc())?);
    assert!(rt; a_file_in_fsync_is_passed(rt.alloc())?);
    assert!(rt; a_directory_has_its_first_pages(rt.alloc())?);
    assert!(rt; a_nid_is_forgotten(rt.alloc())?);
    Ok(())
}
