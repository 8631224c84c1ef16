//! Writing the blocks of a plan.
ghost use Rattle.std.specs.Prelude.{◌+◌, ◌<◌, ◌≤◌, All, OnErr, OnOk, length};
ghost use Rattle.f2_disk.specs.Contents.{WhereTold};
ghost use Rattle.f2_disk.specs.Meter.{HasFailed};
ghost use Rattle.f2_disk.specs.Using.{WritesAtMost};
ghost use Rattle.f2_laid.specs.Laid.{IsPlaced};
ghost use Rattle.f2_laid.specs.Planned.{IsWriteOf};
ghost use Rattle.f2_plain_save.specs.Writing.{HasPut, HasSettled, IsPlanLeft, IsPlanWritten, MayLeave, OnlyAdds, one_block, tail_of};

use crate::packs::tail_at;
use f2_disk::{Block, Disk, DiskFault};
use f2_laid::Planned;
use f2_plain_plan::Plan;

/// Writes the blocks of a plan, and once they are on the disk its tail: after a crash at any time the tail is there
/// with all blocks, or not at all.
pub(crate) fn write_plan<D: Disk>(disk: &mut D, plan: &Plan) -> Result<(), DiskFault>
    requires blocks { plan.now.stored.geometry.blocks ≤ (D.meter disk.old).blocks }
    requires placed { IsPlaced plan.now.stored.geometry plan.now.stored.places }
    requires within { All (λ planned. IsWriteOf plan.now.stored planned.at) plan.now.blocks.items }

    ensures written { OnOk result (WhereTold (D.contents disk.old) (D.contents disk.new)
        (IsPlanWritten plan.now.blocks.items (tail_of plan.now.stored) plan.now.tail)) }
    ensures left { WhereTold (D.contents disk.old) (D.contents disk.new)
        (IsPlanLeft plan.now.blocks.items (tail_of plan.now.stored) plan.now.tail) }

    ensures writes { WritesAtMost (length plan.now.blocks.items + 1) D.contents D.meter disk.old disk.new }
    ensures cause { OnErr result (HasFailed (D.meter disk.old) (D.meter disk.new)) }
{
    let tail_at = tail_at(&plan.stored.geometry, plan.stored.side);
    settle_all(disk, &plan.blocks)?;
    settle(disk, tail_at, &plan.tail)
}

/// Writes blocks one after another, and a flush.
fn settle_all<D: Disk>(disk: &mut D, blocks: &[Planned]) -> Result<(), DiskFault>
    requires { All (λ planned. planned.at < (D.meter disk.old).blocks) blocks.now }

    ensures settled { OnOk result (WhereTold (D.contents disk.old) (D.contents disk.new) (HasSettled blocks.now)) }
    ensures left { WhereTold (D.contents disk.old) (D.contents disk.new) (MayLeave blocks.now) }

    ensures writes { WritesAtMost (length blocks.now) D.contents D.meter disk.old disk.new }
    ensures cause { OnErr result (HasFailed (D.meter disk.old) (D.meter disk.new)) }
{
    write_all(disk, blocks)?;
    disk.flush()
}

/// Writes one block, and a flush.
fn settle<D: Disk>(disk: &mut D, at: u32, block: &Block) -> Result<(), DiskFault>
    requires { at < (D.meter disk.old).blocks }

    ensures settled { OnOk result (WhereTold (D.contents disk.old) (D.contents disk.new) (HasSettled (one_block at block.now))) }
    ensures left { WhereTold (D.contents disk.old) (D.contents disk.new) (MayLeave (one_block at block.now)) }

    ensures writes { WritesAtMost 1 D.contents D.meter disk.old disk.new }
    ensures cause { OnErr result (HasFailed (D.meter disk.old) (D.meter disk.new)) }
{
    write_block(disk, at, block)?;
    disk.flush()
}

/// Writes blocks one after another.
fn write_all<D: Disk>(disk: &mut D, blocks: &[Planned]) -> Result<(), DiskFault>
    requires { All (λ planned. planned.at < (D.meter disk.old).blocks) blocks.now }

    ensures put { OnOk result (WhereTold (D.contents disk.old) (D.contents disk.new) (HasPut blocks.now)) }
    ensures added { WhereTold (D.contents disk.old) (D.contents disk.new) (OnlyAdds blocks.now) }

    ensures writes { WritesAtMost (length blocks.now) D.contents D.meter disk.old disk.new }
    ensures cause { OnErr result (HasFailed (D.meter disk.old) (D.meter disk.new)) }
{
    for planned in blocks {
        write_block(disk, planned.at, &planned.block)?;
    }
    Ok(())
}

/// Writes one block.
pub(crate) fn write_block<D: Disk>(disk: &mut D, at: u32, block: &Block) -> Result<(), DiskFault>
    requires { at < (D.meter disk.old).blocks }

    ensures put { OnOk result (WhereTold (D.contents disk.old) (D.contents disk.new) (HasPut (one_block at block.now))) }
    ensures added { WhereTold (D.contents disk.old) (D.contents disk.new) (OnlyAdds (one_block at block.now)) }

    ensures writes { WritesAtMost 1 D.contents D.meter disk.old disk.new }
    ensures cause { OnErr result (HasFailed (D.meter disk.old) (D.meter disk.new)) }
{
    disk.write(at, block)
}
