//! The names in a block of a directory.
ghost use Rattle.std.specs.Prelude.{◌≡◌, ◌≢◌, ◌≤◌, ℕ, None, Err, IfErr, IfOk, map, true, OnOk};
ghost use Rattle.f2_disk.specs.Meter.{HasFailed};
ghost use Rattle.f2_dentry_block.specs.Dents.{dentry_of};
ghost use Rattle.f2_format.specs.Dentry.{dentries_of, dentry_fault};
ghost use Rattle.f2_model.specs.Names.{is_good_name};
ghost use Rattle.f2_image.specs.Images.{Image, block_at};
ghost use Rattle.f2_image.specs.Packs.{Checkpoint};
ghost use Rattle.f2_image.specs.Bases.{IsReached, IsDirectoryBlock, HasDentry};
ghost use Rattle.f2_image.specs.Faults.{HasTable};
ghost use Rattle.f2_recover.specs.Told.{Tells, OnlyReads};
ghost use Rattle.f2_recover.specs.Faults.{IsRightFault};
ghost use Rattle.f2_recover.specs.Names.{IsDentsFault};

use crate::blocks::read_block;
use crate::faults::{BadImage, MountFault};
use f2_dentry_block::{Dent, UnpackFault, unpack};
use f2_disk::{Block, Disk};
use f2_layout::Geometry;
use std::alloc::Global;

/// The least ino of a file other than the root.
const LEAST_INO: u32 = 4;

/// The names in the block of a directory that stands at an address, in the order of their slots.
pub(crate) fn read_dents<D: Disk>(
    alloc: Global,
    disk: &mut D,
    g: &Geometry,
    at: u32,
) -> Result<Vec<Dent>, MountFault>
    requires device { g.now.blocks ≤ (D.meter disk.old).blocks }
    ensures dents { IfOk result (λ dents. (image : Image) → Tells (D.contents disk.old) image → map dentry_of dents.items ≡ dentries_of (block_at image at)) }
    ensures whole { IfOk result (λ _. (image : Image) → Tells (D.contents disk.old) image → dentry_fault (block_at image at) ≡ None) }
    ensures fault { IfErr result (λ fault. (image : Image) (ckpt : Checkpoint) (directory page : ℕ) → Tells (D.contents disk.old) image → HasTable ckpt → ckpt.geom ≡ g.now → IsReached image ckpt directory
        → IsDirectoryBlock image ckpt directory page at → IsRightFault image ckpt fault) }
    ensures reads { OnlyReads (D.contents disk.old) (D.meter disk.old) (D.contents disk.new) (D.meter disk.new) }
    ensures cause { result ≡ Err MountFault.Read → HasFailed (D.meter disk.old) (D.meter disk.new) }
{
    if !g.in_data(at) {
        return Err(MountFault::Bad(BadImage::OutOfZone { at }));
    }
    let mut block = [0; 4096];
    read_block(disk, at, &mut block)?;
    let dents = unpack_at(alloc, &block, at)?;
    Ok(dents)
}

/// The names in a block that stands at an address.
fn unpack_at(alloc: Global, block: &Block, at: u32) -> Result<Vec<Dent>, MountFault>
    ensures dents { IfOk result (λ dents. map dentry_of dents.items ≡ dentries_of block.now) }
    ensures whole { IfOk result (λ _. dentry_fault block.now ≡ None) }
    ensures fault { IfErr result (IsDentsFault block.now at) }
    ensures no_read { result ≢ Err MountFault.Read }
{
    match unpack(alloc, block) {
        Ok(dents) => Ok(dents),
        Err(UnpackFault::Dent { .. }) => Err(MountFault::Bad(BadImage::DentFault { at })),
        Err(UnpackFault::Memory) => Err(MountFault::Memory),
    }
}

/// Whether a dentry of a directory names an ino that a file can have, by a name that a file can have.
pub(crate) fn check_dent(dent: &Dent) -> Result<(), MountFault>
    ensures least { OnOk result (4 ≤ dent.now.ino) }
    ensures name { OnOk result (is_good_name dent.now.name ≡ true) }
    ensures fault { IfErr result (λ fault. (image : Image) (ckpt : Checkpoint) (directory : ℕ) → HasTable ckpt → IsReached image ckpt directory → HasDentry image ckpt directory (dentry_of dent.now) → IsRightFault image ckpt fault) }
    ensures no_read { result ≢ Err MountFault.Read }
{
    if dent.ino < LEAST_INO {
        return Err(MountFault::Bad(BadImage::BadTree { ino: dent.ino }));
    }
    if !dent.name.is_good() {
        return Err(MountFault::Bad(BadImage::BadTree { ino: dent.ino }));
    }
    Ok(())
}
