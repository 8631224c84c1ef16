//! Names of a directory, in byte order.

use f2_dir::Dir;
use f2_model::{Kind, Name};
use std::alloc::{AllocError, Global};
use std::test::Fail;

/// A directory in which these names are bound, one after another.
fn bound(alloc: Global, names: &[(&[u8], u32)]) -> Result<Dir, AllocError> {
    let mut dir = Dir::new(alloc);
    for (name, ino) in names {
        dir.put(Name::from_slice(alloc, name)?, *ino, Kind::Regular)?;
    }
    Ok(dir)
}

fn names_stand_in_byte_order(alloc: Global) -> Result<bool, Fail> {
    let dir = bound(alloc, &[(b"b", 4), (b"ab", 5), (b"a", 6), (b"b", 7)])?;
    let dents = dir.dents()?;
    Ok(dents.iter().map(|dent| dent.ino).eq([6, 5, 7]))
}

fn a_name_is_taken_out(alloc: Global) -> Result<bool, Fail> {
    let mut dir = bound(alloc, &[(b"b", 4)])?;
    let name = Name::from_slice(alloc, b"b")?;
    let is_there = dir.get(&name) == Some((4, Kind::Regular));
    dir.take(&name);
    Ok(is_there && dir.get(&name).is_none())
}

#[test]
fn all_of_dir(rt: HostRuntime) -> Result<(), Fail> {
    assert!(rt; names_stand_in_byte_order(rt.alloc())?);
    assert!(rt; a_name_is_taken_out(rt.alloc())?);
    Ok(())
}
