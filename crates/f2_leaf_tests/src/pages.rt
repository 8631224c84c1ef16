//! A page that is read, and one that is put.

use f2_disk::{Block, Disk, MemDisk};
use f2_pages::PageStore;
use std::alloc::Global;
use std::test::Fail;

static SEVENS: Block = [7; 4096];

fn a_page_is_read(alloc: Global) -> Result<bool, Fail> {
    let mut disk = MemDisk::new(alloc, 2)?;
    disk.write(1, &SEVENS)?;
    let mut store = PageStore::new(alloc, 1)?;
    let mut into = [0; 4096];
    store.read(&mut disk, (4, 0), 1, &mut into)?;
    Ok(into[9] == 7)
}

fn a_page_that_is_put_is_dirty(alloc: Global) -> Result<bool, Fail> {
    let mut store = PageStore::new(alloc, 1)?;
    store.ready(1)?;
    store.put((4, 0), &SEVENS);
    let is_dirty = store.dirty((4, 0)).is_some();
    store.leave((4, 0));
    Ok(is_dirty && store.dirty((4, 0)).is_none())
}

#[test]
fn all_of_pages(rt: HostRuntime) -> Result<(), Fail> {
    assert!(rt; a_page_is_read(rt.alloc())?);
    assert!(rt; a_page_that_is_put_is_dirty(rt.alloc())?);
    Ok(())
}
