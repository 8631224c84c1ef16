//! Saving a tree.
ghost use Rattle.std.specs.Prelude.{◌≡◌, ◌+◌, ◌<◌, ◌≤◌, ◌^◌, Err, IfOk, length};
ghost use Rattle.f2_disk.specs.Contents.{WhereTold};
ghost use Rattle.f2_disk.specs.Using.{IsCaused, WritesAtMost};
ghost use Rattle.f2_laid.specs.Laid.{IsKept, IsStorable};
ghost use Rattle.f2_laid.specs.Laws.{IsNext};
ghost use Rattle.f2_laid.specs.Planned.{IsPlanOf};
ghost use Rattle.f2_plain_save.specs.Saves.{IsSafelySaved, IsSaved, most_writes};

use crate::faults::SaveFault;
use crate::packs::other_side;
use crate::writing::write_plan;
use f2_disk::Disk;
use f2_laid::Stored;
use f2_model::Tree;
use f2_plain_plan::{Next, Plan, plan};
use std::alloc::{AllocError, Global};

/// Writes the tree as the checkpoint after `old`, and gives what that tells: the same sizes, the other side, the next
/// version, the other copy of the node address table, and where the files stand now.
///
/// The tree has to be one that an image of these sizes can have. Memory is taken before the first write, so want of it
/// changes nothing. Then come all blocks, a flush, the tail of the pack, and a flush. Whatever the result is, a crash
/// then leaves the tree of the last checkpoint or this one, each as a whole; a crash in the middle is a disk whose
/// calls fail from there on. After [`SaveFault::Write`] it isn't known which one until the image is read again.
pub fn save<D: Disk>(
    alloc: Global,
    disk: &mut D,
    old: &Stored,
    tree: &Tree,
) -> Result<Stored, SaveFault>
    requires blocks { old.now.geometry.blocks ≤ (D.meter disk.old).blocks }
    requires storable { IsStorable old.now.geometry tree.now }
    requires kept { IsKept old.now.geometry old.now.places }
    requires version { old.now.version + 1 < 2 ^ 32 }

    ensures next { IfOk result (λ next. IsNext old.now next) }
    ensures version { IfOk result (λ next. next.version ≡ old.now.version + 1) }
    ensures kept { IfOk result (λ next. IsKept next.geometry next.places) }

    ensures saved { IfOk result (λ next. WhereTold (D.contents disk.old) (D.contents disk.new)
        (IsSaved old.now tree.now next)) }
    // whatever the result is
    ensures safe { WhereTold (D.contents disk.old) (D.contents disk.new) (IsSafelySaved old.now tree.now) }

    ensures memory { result ≡ Err SaveFault.Memory
        → (D.contents disk.new ≡ D.contents disk.old) × (D.meter disk.new ≡ D.meter disk.old) }
    ensures writes { WritesAtMost (most_writes old.now.geometry + 1) D.contents D.meter disk.old disk.new }
    ensures cause { IsCaused SaveFault.Write result D.meter disk.old disk.new }
{
    let plan = plan_next(alloc, old, tree)?;
    write_plan(disk, &plan)?;
    Ok(plan.stored)
}

/// Plans the checkpoint after `old`: the other pack, with the next version and the other copy of the table.
fn plan_next(alloc: Global, old: &Stored, tree: &Tree) -> Result<Plan, AllocError>
    requires storable { IsStorable old.now.geometry tree.now }
    requires kept { IsKept old.now.geometry old.now.places }
    requires version { old.now.version + 1 < 2 ^ 32 }

    ensures plan { IfOk result (λ plan. IsPlanOf tree.now old.now.places plan.stored plan.blocks.items plan.tail) }
    ensures next { IfOk result (λ plan. IsNext old.now plan.stored) }
    ensures version { IfOk result (λ plan. plan.stored.version ≡ old.now.version + 1) }
    ensures kept { IfOk result (λ plan. IsKept plan.stored.geometry plan.stored.places) }
    ensures most { IfOk result (λ plan. length plan.blocks.items ≤ most_writes old.now.geometry) }
{
    let next = Next {
        geometry: old.geometry,
        side: other_side(old.side),
        version: old.version + 1,
        second: !old.second,
    };
    plan(alloc, tree, &old.places, next)
}
