//! Pages of an index, and its dirty direct nodes.

use f2_index::Index;
use std::alloc::Global;
use std::test::Fail;

fn changed_pages_make_nodes_dirty(alloc: Global) -> Result<bool, Fail> {
    let mut index = Index::new(alloc);
    index.set(0, 10)?;
    index.set(923, 11)?;
    index.set(2959, 12)?;
    Ok(index.dirty_nodes()?.as_slice() == [1, 4].as_slice())
}

fn a_cut_takes_pages_out(alloc: Global) -> Result<bool, Fail> {
    let mut index = Index::new(alloc);
    index.set(923, 13)?;
    index.clean(1);
    index.cut(923);
    Ok(index.get(923).is_none())
}

#[test]
fn all_of_index(rt: HostRuntime) -> Result<(), Fail> {
    assert!(rt; changed_pages_make_nodes_dirty(rt.alloc())?);
    assert!(rt; a_cut_takes_pages_out(rt.alloc())?);
    Ok(())
}
