//! The sizes of an image, by its superblock.
ghost use Rattle.std.specs.Prelude.{◌≡◌, ◌<◌, ◌≤◌, Err, IfErr, IfNone, IfOk, IfSome};
ghost use Rattle.f2_disk.specs.Meter.{HasFailed};
ghost use Rattle.f2_format.specs.Superblock.{super_geom};
ghost use Rattle.f2_image.specs.Images.{Image, block_at, IsRightCopy, IsSized};
ghost use Rattle.f2_recover.specs.Told.{Tells, OnlyReads};
ghost use Rattle.f2_start.specs.Starts.{IsStanding};

use crate::blocks::read_block;
use f2_disk::Disk;
use f2_layout::{Geometry, read_super};
use f2_recover::{BadImage, MountFault};
use std::alloc::Global;

/// The sizes of an image: those of the first right copy of its superblock. `BadSuper` is told where neither copy is right.
///
/// At most two blocks are read.
pub(crate) fn read_geometry<D: Disk>(alloc: Global, disk: &mut D) -> Result<Geometry, MountFault>
    ensures sized { IfOk result (λ geometry. (image : Image) → Tells (D.contents disk.old) image → IsSized image geometry) }
    ensures fits { IfOk result (λ geometry. geometry.blocks ≤ (D.meter disk.old).blocks) }
    ensures fault { IfErr result (λ fault. (image : Image) → Tells (D.contents disk.old) image → IsStanding image fault) }
    ensures reads { OnlyReads (D.contents disk.old) (D.meter disk.old) (D.contents disk.new) (D.meter disk.new) }
    ensures cause { result ≡ Err MountFault.Read → HasFailed (D.meter disk.old) (D.meter disk.new) }
{
    if let Some(geometry) = read_copy(alloc, disk, 0)? {
        return Ok(geometry);
    }
    match read_copy(alloc, disk, 1)? {
        Some(geometry) => Ok(geometry),
        None => Err(MountFault::Bad(BadImage::BadSuper)),
    }
}

/// The sizes that a copy of the superblock tells, or `None` where it isn't right: as on a disk that doesn't have its block.
fn read_copy<D: Disk>(alloc: Global, disk: &mut D, at: u32) -> Result<Option<Geometry>, MountFault>
    requires { at < 128 }
    ensures right { IfOk result (λ found. IfSome found (λ geometry. (image : Image) → Tells (D.contents disk.old) image
        → IsRightCopy image at × (geometry ≡ super_geom (block_at image at)))) }
    ensures wrong { IfOk result (λ found. IfNone found ((image : Image) → Tells (D.contents disk.old) image → ¬ (IsRightCopy image at))) }
    ensures fits { IfOk result (λ found. IfSome found (λ geometry. geometry.blocks ≤ (D.meter disk.old).blocks)) }
    ensures fault { IfErr result (λ fault. (image : Image) → IsStanding image fault) }
    ensures reads { OnlyReads (D.contents disk.old) (D.meter disk.old) (D.contents disk.new) (D.meter disk.new) }
    ensures cause { result ≡ Err MountFault.Read → HasFailed (D.meter disk.old) (D.meter disk.new) }
{
    let device = disk.blocks();
    if at >= device {
        return Ok(None);
    }
    let mut block = Box::new(alloc, [0; 4096])?;
    read_block(disk, at, &mut block)?;
    Ok(read_super(&block, device).ok())
}
