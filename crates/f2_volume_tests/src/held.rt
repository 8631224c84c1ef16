//! What a recovery may put together of two files and a directory.

use f2_held::{Both, Held};
use f2_model::Name;
use std::alloc::Global;
use std::test::Fail;

const ONE: Both = Both { nodes: 1, pages: 1 };

/// Each number of a file is its greatest, each by itself.
fn files_are_summed(alloc: Global) -> Result<bool, Fail> {
    let mut held = Held::new(alloc);
    let long = Both {
        nodes: 2,
        pages: 10,
    };
    held.add(5, long)?;
    let both = held.with(5, ONE, None)?;
    let more = held.with(6, ONE, None)?;
    Ok(both == long && (more.nodes, more.pages) == (3, 11))
}

/// A directory takes its inode, and a block for its first name.
fn a_directory_takes_its_names(alloc: Global) -> Result<bool, Fail> {
    let name = Name::from_slice(alloc, b"a")?;
    let mut held = Held::new(alloc);
    held.dir(3)?;
    held.bind(3, &name)?;
    let both = held.with(6, ONE, None)?;
    Ok((both.nodes, both.pages) == (2, 2))
}

fn a_new_name_takes_a_block(alloc: Global) -> Result<bool, Fail> {
    let name = Name::from_slice(alloc, b"a")?;
    let mut held = Held::new(alloc);
    held.dir(3)?;
    let both = held.with(6, ONE, Some((3, &name)))?;
    Ok((both.nodes, both.pages) == (2, 2))
}

/// A file's numbers may become smaller.
fn a_file_gets_smaller(alloc: Global) -> Result<bool, Fail> {
    let mut held = Held::new(alloc);
    let long = Both {
        nodes: 2,
        pages: 10,
    };
    held.add(5, long)?;
    held.set(5, ONE)?;
    let both = held.with(6, ONE, None)?;
    Ok((both.nodes, both.pages) == (2, 2))
}

fn a_file_is_forgotten(alloc: Global) -> Result<bool, Fail> {
    let mut held = Held::new(alloc);
    held.add(5, ONE)?;
    held.forget(5);
    let both = held.with(6, ONE, None)?;
    Ok(both == ONE)
}

/// A directory without its last name takes its inode alone.
fn a_name_leaves(alloc: Global) -> Result<bool, Fail> {
    let name = Name::from_slice(alloc, b"a")?;
    let mut held = Held::new(alloc);
    held.dir(3)?;
    held.bind(3, &name)?;
    held.leave(3, &name);
    let both = held.with(6, ONE, None)?;
    Ok((both.nodes, both.pages) == (2, 1))
}

fn a_directory_goes(alloc: Global) -> Result<bool, Fail> {
    let mut held = Held::new(alloc);
    held.dir(3)?;
    let stood = held.has_dir(3);
    held.drop_dir(3);
    let both = held.with(6, ONE, None)?;
    Ok(stood && both == ONE)
}

#[test]
fn all_of_held(rt: HostRuntime) -> Result<(), Fail> {
    assert!(rt; files_are_summed(rt.alloc())?);
    assert!(rt; a_directory_takes_its_names(rt.alloc())?);
    assert!(rt; a_new_name_takes_a_block(rt.alloc())?);
    assert!(rt; a_file_gets_smaller(rt.alloc())?);
    assert!(rt; a_file_is_forgotten(rt.alloc())?);
    assert!(rt; a_name_leaves(rt.alloc())?);
    assert!(rt; a_directory_goes(rt.alloc())?);
    Ok(())
}
