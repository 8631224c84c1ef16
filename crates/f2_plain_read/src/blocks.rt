//! Reading a block.
ghost use Rattle.std.specs.Prelude.{◌≡◌, ◌≤◌, length, Err, OnOk};
ghost use Rattle.f2_disk.specs.Using.{IsCaused, OnlyReads};
ghost use Rattle.f2_image.specs.Images.{Image, block_at};
ghost use Rattle.f2_plain_read.specs.Told.{Tells};

use crate::faults::ReadFault;
use f2_disk::{Block, Disk};

/// Reads a block. `Bad` is for an address that the disk doesn't have.
pub(crate) fn read_block<D: Disk>(disk: &mut D, at: u32, into: &mut Block) -> Result<(), ReadFault>
    ensures content { OnOk result ((image : Image) → Tells (D.contents disk.old) image → into.new ≡ block_at image at) }
    ensures bad { result ≡ Err ReadFault.Bad → (image : Image) → Tells (D.contents disk.old) image → length image ≤ at }
    ensures reads { OnlyReads D.contents D.meter disk.old disk.new }
    ensures cause { IsCaused ReadFault.Read result D.meter disk.old disk.new }
{
    if at >= disk.blocks() {
        return Err(ReadFault::Bad);
    }
    if disk.read(at, into).is_err() {
        return Err(ReadFault::Read);
    }
    Ok(())
}
