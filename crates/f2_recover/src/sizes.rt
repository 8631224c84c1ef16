//! Whether a file ends where its inode says.
ghost use Rattle.std.specs.Prelude.{◌≡◌, ◌≢◌, ◌-◌, ◌≤◌, ◌<◌, ℕ, true, false, length, slice_index, slice_index_or, Err, IfErr, IfNone, IfSome, OnOk};
ghost use Rattle.std.specs.Ordering.{nat_cmp};
ghost use Rattle.std.specs.FinSet as set;
ghost use Rattle.f2_disk.specs.Meter.{HasFailed};
ghost use Rattle.f2_model.specs.declared.rows.Kind.TheVariants.{Regular};
ghost use Rattle.f2_image.specs.Images.{Image};
ghost use Rattle.f2_image.specs.Packs.{Checkpoint};
ghost use Rattle.f2_image.specs.Reached.{IsBasePage};
ghost use Rattle.f2_image.specs.Faults.{HasTable, IsPastSize};
ghost use Rattle.f2_recover.specs.Told.{Tells, OnlyReads};
ghost use Rattle.f2_recover.specs.Faults.{IsRightFault};
ghost use Rattle.f2_recover.specs.Taking.{Taken};
ghost use Rattle.f2_recover.specs.Seeing.{no_page};
ghost use Rattle.f2_recover.specs.Files.{IsFileRead};

use crate::blocks::read_block;
use crate::faults::{BadImage, MountFault};
use crate::files::File;
use crate::nodes::PageAt;
use f2_disk::{Block, Disk};
use f2_layout::Geometry;

/// The bytes of a page.
const BLOCK_BYTES: u64 = 4096;

/// Whether no page of a regular file has a byte at or past its size. At most the last page is read.
pub(crate) fn check_size<D: Disk>(
    disk: &mut D,
    g: &Geometry,
    ino: u32,
    file: &File,
) -> Result<(), MountFault>
    requires device { g.now.blocks ≤ (D.meter disk.old).blocks }
    ensures right { OnOk result ((image : Image) (ckpt : Checkpoint) (inos : set.FinSet nat_cmp) (taken : Taken) → Tells (D.contents disk.old) image → IsFileRead image ckpt inos ino taken file.now
        → (page at : ℕ) → IsBasePage image ckpt ino page at → ¬ (IsPastSize image file.now.size page at)) }
    ensures fault { IfErr result (λ fault. (image : Image) (ckpt : Checkpoint) (inos : set.FinSet nat_cmp) (taken : Taken) → Tells (D.contents disk.old) image → HasTable ckpt → ckpt.geom ≡ g.now
        → file.now.kind ≡ Regular → IsFileRead image ckpt inos ino taken file.now → IsRightFault image ckpt fault) }
    ensures reads { OnlyReads (D.contents disk.old) (D.meter disk.old) (D.contents disk.new) (D.meter disk.new) }
    ensures cause { result ≡ Err MountFault.Read → HasFailed (D.meter disk.old) (D.meter disk.new) }
{
    let Some(last) = last_page(&file.nodes.list) else {
        return Ok(());
    };
    let start = u64::from(last.page) * BLOCK_BYTES;
    if file.size <= start {
        return Err(MountFault::Bad(BadImage::BadTree { ino }));
    }
    let rest = file.size - start;
    if rest >= BLOCK_BYTES {
        return Ok(());
    }
    if !g.in_data(last.at) {
        return Err(MountFault::Bad(BadImage::OutOfZone { at: last.at }));
    }
    let mut block = [0; 4096];
    read_block(disk, last.at, &mut block)?;
    if !is_zero_from(&block, rest as usize) {
        return Err(MountFault::Bad(BadImage::BadTree { ino }));
    }
    Ok(())
}

/// The last page of a list.
fn last_page(list: &[PageAt]) -> Option<PageAt>
    ensures last { IfSome result (λ last. (length list.now ≢ 0)) }
    ensures is { IfSome result (λ last. last ≡ slice_index_or list.now (length list.now - 1) no_page) }
    ensures none { IfNone result (length list.now ≡ 0) }
{
    if list.is_empty() {
        return None;
    }
    Some(list[list.len() - 1])
}

/// Whether all bytes of a block from a place on are 0.
fn is_zero_from(block: &Block, from: usize) -> bool
    requires { from ≤ 4096 }
    ensures zeros { result ≡ true → (place : ℕ) → from ≤ place → place < 4096 → slice_index block.now place ≡ 0 }
    ensures other { result ≡ false → (place : ℕ) × ((from ≤ place) × (place < 4096) × (slice_index block.now place ≢ 0)) }
{
    for place in from..4096 {
        if block[place] != 0 {
            return false;
        }
    }
    true
}
