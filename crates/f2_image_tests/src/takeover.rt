//! What a volume takes over of an image.

use crate::base::base_of;
use crate::recovered::image_with_log;
use f2_disk::{Disk, MemDisk};
use f2_layout::Geometry;
use f2_overlay::roll_files;
use f2_scan::scan;
use f2_takeover::{TakenRows, in_order, take_over};
use std::alloc::Global;
use std::test::Fail;

/// The rows of an image of 128 blocks, whose node log begins at block 20.
fn rows_of(alloc: Global, disk: &mut MemDisk) -> Result<TakenRows, Fail> {
    let geometry = Geometry::new(128, 1)?;
    let walk = base_of(alloc, disk)?.map_err(|_| "no base")?;
    if geometry.blocks() > disk.blocks() || !geometry.in_node(20) {
        return Err(Fail::from("no log there"));
    }
    let chain = scan(alloc, disk, &geometry, 20, 7).map_err(|_| "no log")?;
    let log = chain.blocks();
    if log.len() > 4 || geometry.blocks() > disk.blocks() {
        return Err(Fail::from("another log"));
    }
    let rolls = roll_files(alloc, disk, &geometry, &walk, log).map_err(|_| "no rolls")?;
    Ok(take_over(alloc, &walk, &rolls)?)
}

/// Whether a row is there with so many pages, changed or not, and with such a node at an offset.
fn has_row(
    rows: &TakenRows,
    ino: u32,
    pages: usize,
    changed: bool,
    offset: u32,
    node: Option<(u32, u32)>,
) -> bool {
    let Some(row) = rows.get(ino) else {
        return false;
    };
    let mut holds = row.pages.len() == pages && row.changed == changed;
    holds &= match row.nodes.get(offset) {
        Some(found) => node == Some((found.nid, found.at)),
        None => node.is_none(),
    };
    holds
}

/// A case of each kind, as ino, pages, whether it is changed, offset, and the node's nid and address: nodes of the log, up to the
/// last mark, and of the base; a directory that gains a name, and one that doesn't.
const CASES: [(u32, usize, bool, u32, Option<(u32, u32)>); 7] = [
    (4, 2, true, 0, Some((4, 21))),
    (4, 2, true, 1, Some((6, 20))),
    (4, 2, true, 2, None),
    (8, 0, true, 0, Some((8, 22))),
    (5, 1, true, 0, Some((5, 13))),
    (3, 1, false, 0, Some((3, 10))),
    (7, 0, false, 1, None),
];

fn rows_are_taken_over(alloc: Global) -> Result<bool, Fail> {
    let mut disk = image_with_log(alloc)?;
    let rows = rows_of(alloc, &mut disk)?;
    let mut holds = rows.inos(alloc)?.as_slice() == [3, 4, 5, 7, 8].as_slice();
    holds &= in_order(alloc, &rows)?.as_slice() == [3, 4, 5, 7, 8].as_slice();
    for (ino, pages, changed, offset, node) in CASES {
        holds &= has_row(&rows, ino, pages, changed, offset, node);
    }
    Ok(holds)
}

#[test]
fn all_of_takeover(rt: HostRuntime) -> Result<(), Fail> {
    assert!(rt; rows_are_taken_over(rt.alloc())?);
    Ok(())
}
