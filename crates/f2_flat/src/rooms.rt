//! Whether an image has data blocks for a tree.
ghost use Rattle.std.specs.Prelude.{◌+◌};
ghost use Rattle.f2_model.specs.Count.{data_of_tree};
ghost use Rattle.f2_model.specs.declared.replies.Space.TheVariants as space;
ghost use Rattle.f2_flat.specs.Kept.{HasRootFiles, AreCounts};
ghost use Rattle.f2_flat.specs.Steps.{IsGranted, told_beyond};

use crate::counts::Counts;
use f2_model::{Reply, Space, Tree};
use f2_reference_calls::data_of_tree;
use std::alloc::Global;

/// The name slots that every dentry block but the last has taken at least: a block has 214, and a name takes at most 32.
const LEAST_SLOTS: u64 = 183;

/// Whether a zone that has to hold `need` blocks grants them, or the refusal.
///
/// A reply can't tell a need of 2^32 or more. A tree that has it takes terabytes, and is answered like want of memory.
fn grant(space: Space, need: u128, limit: u32) -> Result<(), Reply>
    ensures { IsGranted (told_beyond space need limit) result }
{
    if need <= u128::from(limit) {
        return Ok(());
    }
    match u32::try_from(need) {
        Ok(need) => Err(Reply::NoSpace { space, need, limit }),
        Err(_) => Err(Reply::Memory),
    }
}

/// Whether the data blocks are granted that a tree with these counts and so many pages more has, or the refusal.
///
/// Dentry blocks are counted only where the counts alone don't tell that there is room.
pub(crate) fn grant_data(
    alloc: Global,
    tree: &Tree,
    counts: Counts,
    more: u64,
    limit: u32,
) -> Result<(), Reply>
    requires files { HasRootFiles tree.now }
    requires counts { AreCounts tree.now counts }
    ensures { IsGranted (told_beyond space.Data (data_of_tree tree.now + more) limit) result }
{
    let blocks = counts.slots.div_ceil(LEAST_SLOTS);
    let most = u128::from(blocks) + u128::from(counts.pages) + u128::from(more);
    if most <= u128::from(limit) {
        return Ok(());
    }
    let need = data_of_tree(alloc, tree)? + u128::from(more);
    grant(Space::Data, need, limit)
}
