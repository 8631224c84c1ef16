//! The base of an image, read and looked at.
ghost use Rattle.std.specs.Prelude.{◌≡◌, ◌≢◌, ◌≤◌, Err, IfErr, IfOk, OnOk};
ghost use Rattle.f2_disk.specs.Meter.{HasFailed};
ghost use Rattle.f2_format.specs.Journal.{MOST_JOURNAL_ENTRIES, journal_count, journal_of};
ghost use Rattle.f2_image.specs.Images.{Image};
ghost use Rattle.f2_image.specs.Packs.{Checkpoint};
ghost use Rattle.f2_recover.specs.Told.{Tells, OnlyReads};
ghost use Rattle.f2_recover.specs.Faults.{IsRightFault};
ghost use Rattle.f2_recover.specs.Walking.{IsCkptOf, IsBaseRead};

use crate::closing::{check_counts, check_reached};
use crate::faults::{BadImage, MountFault};
use crate::journals::check_entries;
use crate::table::read_table;
use crate::walk::{Walk, walk_base};
use f2_disk::{Block, Disk};
use f2_layout::Geometry;
use f2_nat_block::Bitmap;
use f2_nat_journal::Journal;
use std::alloc::Global;

/// The base of an image of these sizes, whose newest pack has this bitmap and this summary.
///
/// The node address table is read whole, and then each node of the base and each block of its directories once; of the
/// pages of files at most each file's last one. Nothing is written. A condition that is told stands in the image; a sound
/// image meets none.
pub fn read_base<D: Disk>(
    alloc: Global,
    disk: &mut D,
    g: &Geometry,
    bitmap: &Bitmap,
    summary: &Block,
) -> Result<Walk, MountFault>
    requires device { g.now.blocks ≤ (D.meter disk.old).blocks }
    ensures base { IfOk result (λ walk. (image : Image) (ckpt : Checkpoint) → Tells (D.contents disk.old) image → IsCkptOf g.now bitmap.now summary.now ckpt → IsBaseRead image ckpt walk) }
    ensures fault { IfErr result (λ fault. (image : Image) (ckpt : Checkpoint) → Tells (D.contents disk.old) image → IsCkptOf g.now bitmap.now summary.now ckpt → IsRightFault image ckpt fault) }
    ensures reads { OnlyReads (D.contents disk.old) (D.meter disk.old) (D.contents disk.new) (D.meter disk.new) }
    ensures cause { result ≡ Err MountFault.Read → HasFailed (D.meter disk.old) (D.meter disk.new) }
{
    let journal = read_journal(summary)?;
    check_entries(alloc, g, summary)?;
    let table = read_table(alloc, disk, g, bitmap, &journal)?;
    let walk = walk_base(alloc, disk, g, &table)?;
    check_reached(&table, &walk.zones)?;
    check_counts(&walk.zones, g)?;
    Ok(walk)
}

/// The journal of a summary.
fn read_journal(summary: &Block) -> Result<Journal, MountFault>
    ensures journal { IfOk result (λ journal. journal ≡ journal_of summary.now) }
    ensures has { OnOk result (journal_count summary.now ≤ MOST_JOURNAL_ENTRIES) }
    ensures fault { IfErr result (λ fault. (image : Image) (ckpt : Checkpoint) → ckpt.summary ≡ summary.now → IsRightFault image ckpt fault) }
    ensures no_read { result ≢ Err MountFault.Read }
{
    match Journal::read(summary) {
        Ok(journal) => Ok(journal),
        Err(fault) => Err(MountFault::Bad(BadImage::Journal { count: fault.count })),
    }
}
