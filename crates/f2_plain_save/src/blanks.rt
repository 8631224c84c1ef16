//! Blank images: superblocks, and zeros up to the data zone.
ghost use Rattle.std.specs.Prelude.{◌+◌, ◌≤◌, OnErr, OnOk};
ghost use Rattle.f2_format.specs.Geometry.{data_start};
ghost use Rattle.f2_disk.specs.Contents.{WhereTold};
ghost use Rattle.f2_disk.specs.Meter.{HasFailed};
ghost use Rattle.f2_disk.specs.Using.{WritesAtMost};
ghost use Rattle.f2_plain_save.specs.Blanks.{HasBlank, HasSupers, IsCleared};

use crate::writing::write_block;
use f2_disk::{Disk, DiskFault};
use f2_layout::{Geometry, write_super};

/// Writes zeros to all blocks below the data zone and then both copies of the superblock, and flushes.
pub(crate) fn write_blank<D: Disk>(disk: &mut D, geometry: &Geometry) -> Result<(), DiskFault>
    requires { geometry.now.blocks ≤ (D.meter disk.old).blocks }

    ensures blank { OnOk result (WhereTold (D.contents disk.old) (D.contents disk.new) (HasBlank geometry.now)) }

    ensures writes { WritesAtMost (data_start geometry.now + 2) D.contents D.meter disk.old disk.new }
    ensures cause { OnErr result (HasFailed (D.meter disk.old) (D.meter disk.new)) }
{
    let device = disk.blocks();
    let end = geometry.data_first();
    let blocks = geometry.blocks();
    prove!(end <= blocks && blocks <= device);
    clear(disk, end)?;
    write_supers(disk, geometry)?;
    disk.flush()
}

/// Writes zeros to the blocks below an address.
fn clear<D: Disk>(disk: &mut D, end: u32) -> Result<(), DiskFault>
    requires { end ≤ (D.meter disk.old).blocks }

    ensures cleared { OnOk result (WhereTold (D.contents disk.old) (D.contents disk.new) (IsCleared end)) }

    ensures writes { WritesAtMost end D.contents D.meter disk.old disk.new }
    ensures cause { OnErr result (HasFailed (D.meter disk.old) (D.meter disk.new)) }
{
    let zeros = [0; 4096];
    for at in 0..end {
        write_block(disk, at, &zeros)?;
    }
    Ok(())
}

/// Writes both copies of the superblock.
fn write_supers<D: Disk>(disk: &mut D, geometry: &Geometry) -> Result<(), DiskFault>
    requires { 2 ≤ (D.meter disk.old).blocks }

    ensures supers { OnOk result (WhereTold (D.contents disk.old) (D.contents disk.new) (HasSupers geometry.now)) }

    ensures writes { WritesAtMost 2 D.contents D.meter disk.old disk.new }
    ensures cause { OnErr result (HasFailed (D.meter disk.old) (D.meter disk.new)) }
{
    let mut block = [0; 4096];
    write_super(&mut block, geometry);
    write_block(disk, 0, &block)?;
    write_block(disk, 1, &block)
}
