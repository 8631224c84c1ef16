//! Reading a block.
ghost use Rattle.std.specs.Prelude.{◌≡◌, ◌<◌, Err, OnOk, IfErr};
ghost use Rattle.f2_disk.specs.Meter.{HasFailed};
ghost use Rattle.f2_image.specs.Images.{Image, block_at};
ghost use Rattle.f2_recover.specs.Told.{Tells, OnlyReads};
ghost use Rattle.f2_recover.specs.declared.faults.MountFault.{MountFault};

use f2_disk::{Block, Disk};
use f2_recover::MountFault;

/// Reads a block.
pub(crate) fn read_block<D: Disk>(disk: &mut D, at: u32, into: &mut Block) -> Result<(), MountFault>
    requires { at < (D.meter disk.old).blocks }
    ensures content { OnOk result ((image : Image) → Tells (D.contents disk.old) image → into.new ≡ block_at image at) }
    ensures fault { IfErr result (λ fault. fault ≡ MountFault.Read) }
    ensures reads { OnlyReads (D.contents disk.old) (D.meter disk.old) (D.contents disk.new) (D.meter disk.new) }
    ensures cause { result ≡ Err MountFault.Read → HasFailed (D.meter disk.old) (D.meter disk.new) }
{
    if disk.read(at, into).is_err() {
        return Err(MountFault::Read);
    }
    Ok(())
}
