//! The blocks of a directory's inode, and of a file's direct node.
ghost use Rattle.std.specs.Prelude.{IfOk, IsTrue};
ghost use Rattle.std.specs.FinSet as set;
ghost use Rattle.f2_index.specs.Paged.{nodes_of_pages};
ghost use Rattle.f2_blocks.specs.Blocks.{HaveNids};

use f2_blocks::{Nids, NodeRow, node};
use f2_index::Index;
use f2_model::{Kind, Name};
use std::alloc::{AllocError, Global};

/// The index and the nids of a file without pages.
fn empty(alloc: Global) -> (Index, Nids)
    ensures nids { HaveNids result.0.pages result.1 }
    ensures there { IsTrue (set.contains (nodes_of_pages result.0.pages) 0) }
{
    (Index::new(alloc), Nids::new(alloc))
}

fn an_inode_has_its_fields(alloc: Global) -> Result<bool, AllocError> {
    let (index, mut nids) = empty(alloc);
    let name = Name::from_slice(alloc, b"log")?;
    let row = NodeRow {
        kind: Kind::Directory,
        size: 8192,
        pino: 9,
        name: &name,
        blocks: 4,
    };
    let mut block = [7; 4096];
    node(&row, &index, &nids, 0, &mut block);
    // Mode and links, the ends of the name, and the first byte of the footer.
    let told = (
        block[0],
        block[1],
        block[12],
        block[92],
        block[95],
        block[4072],
    );
    nids.put(1, 5)?;
    Ok(told == (0xED, 0x41, 2, b'l', 0, 7) && nids.get(1) == nids.take(1))
}

#[test]
fn all_of_blocks(rt: HostRuntime) -> Result<(), AllocError> {
    assert!(rt; an_inode_has_its_fields(rt.alloc())?);
    Ok(())
}
