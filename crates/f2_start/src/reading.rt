//! Reading the superblock and the newest pack of an image.
ghost use Rattle.std.specs.Prelude.{◌≡◌, ◌≤◌, Err, IfErr, IfOk, IsTrue};
ghost use Rattle.f2_disk.specs.Meter.{HasFailed};
ghost use Rattle.f2_format.specs.Geometry.{is_in_node};
ghost use Rattle.f2_image.specs.Images.{Image};
ghost use Rattle.f2_image.specs.Packs.{Checkpoint, IsCheckpoint};
ghost use Rattle.f2_recover.specs.Told.{Tells, OnlyReads};
ghost use Rattle.f2_start.specs.Starts.{IsStanding, IsStartOf};

use crate::packs::read_newest;
use crate::superblock::read_geometry;
use f2_disk::Disk;
use f2_layout::Geometry;
use f2_pack::{Pack, Side};
use f2_recover::MountFault;
use std::alloc::Global;

/// What the newest checkpoint of an image tells.
#[derive(Debug, Drop)]
pub struct Start {
    /// The sizes of the image, by the first right copy of its superblock.
    pub geometry: Geometry,
    /// The side on which the checkpoint's pack stands.
    pub side: Side,
    /// The checkpoint's pack: the newest that is valid.
    pub pack: Pack,
}

/// Reads the superblock and the newest pack of an image: at most eight blocks. Nothing is written.
///
/// `BadSuper` is told where neither copy of the superblock is right, as on a disk too small for any image, and
/// `NoCheckpoint` where neither pack is valid. After any error the disk holds what it held, so the call can be made again.
pub fn read_start<D: Disk>(alloc: Global, disk: &mut D) -> Result<Start, MountFault>
    ensures start { IfOk result (λ start. (image : Image) → Tells (D.contents disk.old) image → (ckpt : Checkpoint) × (IsCheckpoint image ckpt × IsStartOf start ckpt)) }
    ensures fits { IfOk result (λ start. start.geometry.blocks ≤ (D.meter disk.old).blocks) }
    ensures log { IfOk result (λ start. IsTrue (is_in_node start.geometry start.pack.head.log_start)) }
    ensures fault { IfErr result (λ fault. (image : Image) → Tells (D.contents disk.old) image → IsStanding image fault) }
    ensures reads { OnlyReads (D.contents disk.old) (D.meter disk.old) (D.contents disk.new) (D.meter disk.new) }
    ensures cause { result ≡ Err MountFault.Read → HasFailed (D.meter disk.old) (D.meter disk.new) }
{
    let geometry = read_geometry(alloc, disk)?;
    let (pack, side) = read_newest(alloc, disk, &geometry)?;
    Ok(Start {
        geometry,
        side,
        pack,
    })
}
