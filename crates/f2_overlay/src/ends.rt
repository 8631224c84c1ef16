//! Whether a marked file ends where its inode says.
ghost use Rattle.std.specs.Prelude.{◌≡◌, ◌≢◌, ◌≤◌, ◌<◌, ℕ, List, true, false, slice_index, Err, IfErr, OnOk};
ghost use Rattle.std.specs.FinMap as map;
ghost use Rattle.f2_disk.specs.Meter.{HasFailed};
ghost use Rattle.f2_format.specs.Footer.{footer_ino};
ghost use Rattle.f2_format.specs.Inode.{inode_of};
ghost use Rattle.f2_image.specs.Images.{Image};
ghost use Rattle.f2_image.specs.Packs.{Checkpoint};
ghost use Rattle.f2_image.specs.Reached.{IsMarkedAt};
ghost use Rattle.f2_image.specs.Faults.{HasTable, IsPastSize};
ghost use Rattle.f2_recover.specs.Told.{Tells, OnlyReads};
ghost use Rattle.f2_recover.specs.Faults.{IsRightFault};
ghost use Rattle.f2_recover.specs.declared.faults.MountFault.{MountFault};
ghost use Rattle.f2_overlay.specs.Rolling.{AreMarked};

use crate::addresses::Addresses;
use crate::blocks::read_block;
use f2_disk::{Block, Disk};
use f2_layout::Geometry;
use f2_recover::{BadImage, MountFault};

/// The bytes of a page.
const BLOCK_BYTES: u64 = 4096;

/// Whether no page of a marked file has a byte at or past its size. At most the last page is read.
pub(crate) fn check_end<D: Disk>(
    disk: &mut D,
    g: &Geometry,
    ino: u32,
    size: u64,
    pages: &Addresses,
) -> Result<(), MountFault>
    requires device { g.now.blocks ≤ (D.meter disk.old).blocks }
    ensures right { OnOk result ((image : Image) → Tells (D.contents disk.old) image → (page at : ℕ) → map.get pages.now page ≡ Some at → ¬ (IsPastSize image size page at)) }
    ensures fault { IfErr result (λ fault. (image : Image) (ckpt : Checkpoint) (place : ℕ) (block : List ℕ) → Tells (D.contents disk.old) image → HasTable ckpt → ckpt.geom ≡ g.now → IsMarkedAt image ckpt place block
        → footer_ino block ≡ ino → size ≡ (inode_of block).size → AreMarked image ckpt place pages.now → IsRightFault image ckpt fault) }
    ensures reads { OnlyReads (D.contents disk.old) (D.meter disk.old) (D.contents disk.new) (D.meter disk.new) }
    ensures cause { result ≡ Err MountFault.Read → HasFailed (D.meter disk.old) (D.meter disk.new) }
{
    let Some((page, at)) = pages.last() else {
        return Ok(());
    };
    let start = u64::from(page) * BLOCK_BYTES;
    if size <= start {
        return Err(MountFault::Bad(BadImage::BadTree { ino }));
    }
    let rest = size - start;
    if rest >= BLOCK_BYTES {
        return Ok(());
    }
    if !g.in_data(at) {
        return Err(MountFault::Bad(BadImage::OutOfZone { at }));
    }
    let mut block = [0; 4096];
    read_block(disk, at, &mut block)?;
    if !is_zero_from(&block, rest as usize) {
        return Err(MountFault::Bad(BadImage::BadTree { ino }));
    }
    Ok(())
}

/// Whether all bytes of a block from a place on are 0.
fn is_zero_from(block: &Block, from: usize) -> bool
    requires { from ≤ 4096 }
    ensures zeros { result ≡ true → (place : ℕ) → from ≤ place → place < 4096 → slice_index block.now place ≡ 0 }
    ensures other { result ≡ false → (place : ℕ) × ((from ≤ place) × (place < 4096) × (slice_index block.now place ≢ 0)) }
{
    for place in from..4096 {
        if block[place] != 0 {
            return false;
        }
    }
    true
}
