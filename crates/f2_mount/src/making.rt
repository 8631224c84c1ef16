//! Making an image.
ghost use Rattle.std.specs.Prelude.{◌≡◌, ◌+◌, ◌≤◌, Err, OnOk};
ghost use Rattle.f2_format.specs.Geometry.{data_start};
ghost use Rattle.f2_disk.specs.Contents.{WhereTold};
ghost use Rattle.f2_disk.specs.Using.{IsCaused, WritesAtMost};
ghost use Rattle.f2_mount.specs.Making.{HasNewImage};

use crate::faults::MakeFault;
use f2_disk::Disk;
use f2_layout::Geometry;
use std::alloc::Global;

/// Makes an image of these sizes with the root alone on a disk: version 1, the newer format. What the disk held is
/// lost.
///
/// Memory is taken before the first write, so after [`MakeFault::Memory`] the disk is as it was. After
/// [`MakeFault::Write`], and after a crash in the middle, anything may be there: a part of the new image, the old
/// content or none. Only the number of blocks stays.
pub fn mkfs<D: Disk>(alloc: Global, disk: &mut D, geometry: &Geometry) -> Result<(), MakeFault>
    requires { geometry.now.blocks ≤ (D.meter disk.old).blocks }

    ensures made { OnOk result (WhereTold (D.contents disk.old) (D.contents disk.new) (HasNewImage geometry.now)) }

    ensures memory { result ≡ Err MakeFault.Memory
        → (D.contents disk.new ≡ D.contents disk.old) × (D.meter disk.new ≡ D.meter disk.old) }
    ensures writes { WritesAtMost (data_start geometry.now + 2 + (geometry.now.nat + 4)) D.contents D.meter disk.old disk.new }
    ensures cause { IsCaused MakeFault.Write result D.meter disk.old disk.new }
{
    f2_plain_save::mkfs(alloc, disk, *geometry)?;
    Ok(())
}
