//! The node log of an image, read and rolled over its base.
ghost use Rattle.std.specs.Prelude.{◌≡◌, ◌≢◌, ◌≤◌, ◌<◌, ◌^◌, Err, IfErr, IfOk, IsTrue, length};
ghost use Rattle.f2_disk.specs.Meter.{HasFailed};
ghost use Rattle.f2_format.specs.Geometry.{is_in_node};
ghost use Rattle.f2_image.specs.Images.{Image};
ghost use Rattle.f2_image.specs.Packs.{Checkpoint};
ghost use Rattle.f2_image.specs.Chains.{chain, marked_places};
ghost use Rattle.f2_overlay.specs.Rolling.{IsGround};
ghost use Rattle.f2_recover.specs.Told.{Tells, OnlyReads};
ghost use Rattle.f2_recover.specs.Faults.{IsRightFault};
ghost use Rattle.f2_scan.specs.Laws.{HasNoLogFault};
ghost use Rattle.f2_scan.specs.Logs.{IsFault};
ghost use Rattle.f2_start.specs.Starts.{IsStartOf};
ghost use Rattle.f2_mount.specs.Recovering.{IsRolledUp};

use f2_disk::Disk;
use f2_layout::Geometry;
use f2_overlay::{Rolls, check_names, check_nids, last_marks, roll_files};
use f2_recover::{BadImage, MountFault, Walk};
use f2_scan::{Chain, LogBlock, ScanFault, scan};
use f2_start::{Start, recovery_version};
use std::alloc::Global;

/// A fault of the node log as one of the image.
fn fault_of(fault: ScanFault) -> MountFault
    ensures right { (image : Image) (ckpt : Checkpoint) → IsFault ckpt.geom (chain image ckpt) fault → IsRightFault image ckpt result }
    ensures read { result ≡ MountFault.Read → fault ≡ ScanFault.Read }
{
    match fault {
        ScanFault::Read => MountFault::Read,
        ScanFault::ChainLong { at } => MountFault::Bad(BadImage::ChainLong { at }),
        ScanFault::BadInode { at, .. } => MountFault::Bad(BadImage::BadInode { at }),
        ScanFault::OutOfZone { at } => MountFault::Bad(BadImage::OutOfZone { at }),
        ScanFault::Memory => MountFault::Memory,
    }
}

/// The node log after a checkpoint.
pub(crate) fn read_log<D: Disk>(
    alloc: Global,
    disk: &mut D,
    start: &Start,
) -> Result<Chain, MountFault>
    requires device { start.now.geometry.blocks ≤ (D.meter disk.old).blocks }
    requires log { IsTrue (is_in_node start.now.geometry start.now.pack.head.log_start) }
    ensures chain { IfOk result (λ log. (image : Image) (ckpt : Checkpoint) → Tells (D.contents disk.old) image → IsStartOf start.now ckpt → log ≡ chain image ckpt) }
    ensures sound { IfOk result (λ log. (image : Image) (ckpt : Checkpoint) → Tells (D.contents disk.old) image → IsStartOf start.now ckpt → HasNoLogFault image ckpt) }
    ensures few { IfOk result (λ log. length log < 2 ^ 31) }
    ensures fault { IfErr result (λ fault. (image : Image) (ckpt : Checkpoint) → Tells (D.contents disk.old) image → IsStartOf start.now ckpt → IsRightFault image ckpt fault) }
    ensures reads { OnlyReads (D.contents disk.old) (D.meter disk.old) (D.contents disk.new) (D.meter disk.new) }
    ensures cause { result ≡ Err MountFault.Read → HasFailed (D.meter disk.old) (D.meter disk.new) }
{
    let g = &start.geometry;
    let head = &start.pack.head;
    let version = recovery_version(head, g.nat());
    match scan(alloc, disk, g, head.log_start, version) {
        Ok(log) => Ok(log),
        Err(fault) => Err(fault_of(fault)),
    }
}

/// How many blocks of a node log are marked.
pub(crate) fn count_marks(log: &[LogBlock]) -> u32
    requires few { length log.now < 2 ^ 31 }
    ensures { result ≡ length (marked_places log.now) }
{
    let mut count = 0;
    for logged in log {
        let footer = f2_footer::read(&logged.block);
        if footer.offset == 0 && footer.fsync {
            count += 1;
        }
    }
    count
}

/// Looks at a node log over the base of its image, and gives the files that it marks.
pub(crate) fn roll_log<D: Disk>(
    alloc: Global,
    disk: &mut D,
    g: &Geometry,
    walk: &Walk,
    log: &[LogBlock],
) -> Result<Rolls, MountFault>
    requires device { g.now.blocks ≤ (D.meter disk.old).blocks }
    requires few { length log.now < 2 ^ 31 }
    ensures rolled { IfOk result (λ rolls. (image : Image) (ckpt : Checkpoint) → IsGround (D.contents disk.old) g.now image ckpt walk.now log.now → HasNoLogFault image ckpt → IsRolledUp image ckpt walk.now rolls) }
    ensures fault { IfErr result (λ fault. (image : Image) (ckpt : Checkpoint) → IsGround (D.contents disk.old) g.now image ckpt walk.now log.now → HasNoLogFault image ckpt → IsRightFault image ckpt fault) }
    ensures reads { OnlyReads (D.contents disk.old) (D.meter disk.old) (D.contents disk.new) (D.meter disk.new) }
    ensures cause { result ≡ Err MountFault.Read → HasFailed (D.meter disk.old) (D.meter disk.new) }
{
    let lasts = last_marks(alloc, log)?;
    check_nids(alloc, walk, log, &lasts)?;
    check_names(alloc, walk, log)?;
    roll_files(alloc, disk, g, walk, log)
}
