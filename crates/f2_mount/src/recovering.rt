//! Reading the tree that an image stands for.
ghost use Rattle.std.specs.Prelude.{◌≡◌, ◌≤◌, Err, IfErr, IfOk, IsTrue};
ghost use Rattle.f2_disk.specs.Meter.{HasFailed};
ghost use Rattle.f2_format.specs.Geometry.{is_in_node};
ghost use Rattle.f2_image.specs.Images.{Image};
ghost use Rattle.f2_image.specs.Packs.{Checkpoint, IsCheckpoint};
ghost use Rattle.f2_found.specs.Places.{IsWithinBlocks};
ghost use Rattle.f2_recover.specs.Faults.{IsRightFault};
ghost use Rattle.f2_recover.specs.Told.{Tells, OnlyReads};
ghost use Rattle.f2_start.specs.Starts.{IsStanding, IsStartOf};
ghost use Rattle.f2_mount.specs.Recovering.{IsRecovered};

use crate::logs::{count_marks, read_log, roll_log};
use crate::trees::find_tree;
use f2_disk::Disk;
use f2_found::Found;
use f2_recover::{BadImage, MountFault, read_base};
use f2_start::{Start, read_start};
use std::alloc::Global;

/// The greatest version with which an image is taken.
const MOST_VERSION: u64 = 4_000_000_000;

/// What is recovered of an image.
#[derive(Drop)]
pub struct Recovered {
    /// Its tree: that of the newest checkpoint, with each file that was marked after it as its last mark has it.
    pub tree: Found,
    /// How many marks its node log has.
    pub marks: u32,
    /// The version of its checkpoint.
    pub version: u64,
}

/// The tree that an image stands for, read as a mount reads it: the newest checkpoint, and the node log rolled forward over
/// it.
///
/// Each block that the tree needs is read once, but for the pages of files: of these at most one is looked at for each file of
/// the checkpoint and for each mark. Nothing is written. A condition that is told stands in the image; a sound image meets none
/// but that of the last version. After any error the disk holds what it held, so the call can be made again.
pub fn recover_image<D: Disk>(alloc: Global, disk: &mut D) -> Result<Recovered, MountFault>
    ensures recovered { IfOk result (λ recovered. (image : Image) → Tells (D.contents disk.old) image → IsRecovered image recovered) }
    ensures fits { IfOk result (λ recovered. IsWithinBlocks (D.meter disk.old).blocks recovered.tree) }
    ensures fault { IfErr result (λ fault. (image : Image) → Tells (D.contents disk.old) image → IsStanding image fault) }
    ensures reads { OnlyReads (D.contents disk.old) (D.meter disk.old) (D.contents disk.new) (D.meter disk.new) }
    ensures cause { result ≡ Err MountFault.Read → HasFailed (D.meter disk.old) (D.meter disk.new) }
{
    let start = read_start(alloc, disk)?;
    recover_from(alloc, disk, &start)
}

/// The tree of an image with this newest checkpoint.
fn recover_from<D: Disk>(
    alloc: Global,
    disk: &mut D,
    start: &Start,
) -> Result<Recovered, MountFault>
    requires device { start.now.geometry.blocks ≤ (D.meter disk.old).blocks }
    requires log { IsTrue (is_in_node start.now.geometry start.now.pack.head.log_start) }
    ensures recovered { IfOk result (λ recovered. (image : Image) (ckpt : Checkpoint) → Tells (D.contents disk.old) image → IsCheckpoint image ckpt → IsStartOf start.now ckpt → IsRecovered image recovered) }
    ensures fits { IfOk result (λ recovered. IsWithinBlocks start.now.geometry.blocks recovered.tree) }
    ensures fault { IfErr result (λ fault. (image : Image) (ckpt : Checkpoint) → Tells (D.contents disk.old) image → IsCheckpoint image ckpt → IsStartOf start.now ckpt → IsRightFault image ckpt fault) }
    ensures reads { OnlyReads (D.contents disk.old) (D.meter disk.old) (D.contents disk.new) (D.meter disk.new) }
    ensures cause { result ≡ Err MountFault.Read → HasFailed (D.meter disk.old) (D.meter disk.new) }
{
    let g = &start.geometry;
    let head = &start.pack.head;
    let version = head.version;
    if version > MOST_VERSION {
        return Err(MountFault::Bad(BadImage::VersionEnd { version }));
    }
    let walk = read_base(alloc, disk, g, &head.bitmap, &start.pack.summary)?;
    let log = read_log(alloc, disk, start)?;
    let rolls = roll_log(alloc, disk, g, &walk, log.blocks())?;
    Ok(Recovered {
        tree: find_tree(alloc, g, &walk, &rolls)?,
        marks: count_marks(log.blocks()),
        version,
    })
}
