//! What a core finds on its disk.
ghost use Rattle.std.specs.Prelude.{◌≡◌, ◌≤◌, ◌⊎◌, Err, IfOk, IsSome};
ghost use Rattle.f2_disk.specs.Meter.{HasFailed, IsWithin};
ghost use Rattle.f2_model.specs.declared.events.MountRefusal.TheVariants.{BadImage, ReadFailed, WriteFailed};
ghost use Rattle.f2_core.specs.Found.{FindsHeld, IsSoundlyFound, NoneIsHeld, StaysHeld};

use crate::volumes::Volume;
use f2_disk::Disk;
use f2_flat::Files;
use f2_layout::Geometry;
use f2_model::MountRefusal;
use f2_plain_read::{Found, ReadFault, read};
use std::alloc::{AllocError, Global};

/// Flushes a disk, and builds the tree of its image from the blocks alone.
pub(crate) fn find<D: Disk>(
    alloc: Global,
    disk: &mut D,
    geometry: &Geometry,
) -> Result<Volume, MountRefusal>
    ensures found { IfOk result (FindsHeld geometry.now (D.contents disk.old)) }
    ensures sound { IfOk result (IsSoundlyFound geometry.now) }
    ensures bad { result ≡ Err BadImage → NoneIsHeld geometry.now (D.contents disk.old) }
    ensures told { IsSome (D.contents disk.old) → IsSome (D.contents disk.new) }
    ensures kept { StaysHeld geometry.now (D.contents disk.old) (D.contents disk.new) }
    ensures cause { (result ≡ Err ReadFailed) ⊎ (result ≡ Err WriteFailed) → HasFailed (D.meter disk.old) (D.meter disk.new) }
    ensures within { IsWithin 0 (D.meter disk.old) (D.meter disk.new) }
{
    if disk.flush().is_err() {
        return Err(MountRefusal::WriteFailed);
    }
    match read(alloc, disk) {
        Ok(Found { tree, stored }) => {
            if stored.geometry != *geometry {
                return Err(MountRefusal::BadImage);
            }
            match Files::of(alloc, tree, geometry) {
                Ok(Some(files)) => Ok(Volume { files, stored }),
                Ok(None) => Err(MountRefusal::BadImage),
                Err(AllocError) => Err(MountRefusal::NoMemory),
            }
        }
        Err(ReadFault::Read) => Err(MountRefusal::ReadFailed),
        Err(ReadFault::Bad) => Err(MountRefusal::BadImage),
        Err(ReadFault::Memory) => Err(MountRefusal::NoMemory),
    }
}
