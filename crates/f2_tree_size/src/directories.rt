//! What a directory takes.
ghost use Rattle.std.specs.Prelude.{◌≡◌, IfOk};
ghost use Rattle.std.specs.List.{range_with_len};
ghost use Rattle.f2_format.specs.Offsets.{node_count};
ghost use Rattle.f2_tree_size.specs.Sizes.{blocks_of_entries};

use crate::first_pages::nodes_of_first;
use f2_dir::Dir;
use f2_held::Both;
use std::alloc::AllocError;

/// The name slots of a dentry block.
const SLOTS_A_BLOCK: u64 = 214;

/// The bytes of a name slot.
const BYTES_A_SLOT: u64 = 8;

/// What a directory with these names takes: the blocks that they fill, and the nodes of as many pages.
///
/// The names come in byte order, as they are packed. A name of any length counts, also one that no dentry block has room for.
pub(crate) fn size_of_directory(names: &Dir) -> Result<Both, AllocError>
    ensures nodes { IfOk result (λ size. size.nodes ≡ node_count (range_with_len 0 (blocks_of_entries names.now))) }
    ensures blocks { IfOk result (λ size. size.pages ≡ blocks_of_entries names.now) }
{
    let dents = names.dents()?;
    let mut blocks = 0;
    let mut taken = SLOTS_A_BLOCK;
    for dent in &dents {
        let slots = (dent.name.len() as u64).div_ceil(BYTES_A_SLOT);
        if taken + slots <= SLOTS_A_BLOCK {
            taken += slots;
        } else {
            blocks += 1;
            taken = slots;
        }
    }
    Ok(Both {
        nodes: nodes_of_first(blocks),
        pages: blocks,
    })
}
