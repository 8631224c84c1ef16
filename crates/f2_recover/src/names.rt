//! The names of a directory of the base.
ghost use Rattle.std.specs.Prelude.{◌≡◌, ◌≢◌, ◌≤◌, ℕ, ◌++◌, All, Err, IfErr, IfOk, OnOk};
ghost use Rattle.f2_disk.specs.Meter.{HasFailed};
ghost use Rattle.f2_dentry_block.specs.Dents.{dentry_of};
ghost use Rattle.f2_image.specs.Images.{Image};
ghost use Rattle.f2_image.specs.Packs.{Checkpoint};
ghost use Rattle.f2_image.specs.Bases.{IsReached, HasDentry};
ghost use Rattle.f2_image.specs.Faults.{HasTable};
ghost use Rattle.f2_recover.specs.Told.{Tells, OnlyReads};
ghost use Rattle.f2_recover.specs.Faults.{IsRightFault};
ghost use Rattle.f2_recover.specs.Dents.{AreBlocksOf, AreDents, AreFit};

use crate::dentries::{check_dent, read_dents};
use crate::faults::MountFault;
use crate::nodes::PageAt;
use f2_dentry_block::Dent;
use f2_disk::Disk;
use f2_layout::Geometry;
use std::alloc::Global;

/// The names of a directory whose blocks stand at these addresses, each right for a file.
///
/// Each block is read once.
pub(crate) fn read_names<D: Disk>(
    alloc: Global,
    disk: &mut D,
    g: &Geometry,
    blocks: &[PageAt],
) -> Result<Vec<Dent>, MountFault>
    requires device { g.now.blocks ≤ (D.meter disk.old).blocks }
    ensures dents { IfOk result (λ dents. (image : Image) (ckpt : Checkpoint) (directory : ℕ) → Tells (D.contents disk.old) image → AreBlocksOf image ckpt directory blocks.now → AreDents image ckpt directory dents.items) }
    ensures fit { IfOk result (λ dents. AreFit dents.items) }
    ensures fault { IfErr result (λ fault. (image : Image) (ckpt : Checkpoint) (directory : ℕ) → Tells (D.contents disk.old) image → HasTable ckpt → ckpt.geom ≡ g.now → IsReached image ckpt directory
        → AreBlocksOf image ckpt directory blocks.now → IsRightFault image ckpt fault) }
    ensures reads { OnlyReads (D.contents disk.old) (D.meter disk.old) (D.contents disk.new) (D.meter disk.new) }
    ensures cause { result ≡ Err MountFault.Read → HasFailed (D.meter disk.old) (D.meter disk.new) }
{
    let mut dents = Vec::new(alloc);
    for block in blocks {
        let found = read_dents(alloc, disk, g, block.at)?;
        add_dents(&mut dents, found)?;
    }
    Ok(dents)
}

/// Appends the names of a block, each looked at.
fn add_dents(dents: &mut Vec<Dent>, found: Vec<Dent>) -> Result<(), MountFault>
    ensures dents { OnOk result (dents.new.items ≡ dents.old.items ++ found.items) }
    ensures fit { OnOk result (AreFit found.items) }
    ensures fault { IfErr result (λ fault. (image : Image) (ckpt : Checkpoint) (directory : ℕ) → HasTable ckpt → IsReached image ckpt directory
        → All (λ dent. HasDentry image ckpt directory (dentry_of dent)) found.items → IsRightFault image ckpt fault) }
    ensures no_read { result ≢ Err MountFault.Read }
{
    for dent in found {
        check_dent(&dent)?;
        dents.push(dent)?;
    }
    Ok(())
}
