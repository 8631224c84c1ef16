//! The node address table, read whole.
ghost use Rattle.std.specs.Prelude.{◌≡◌, ◌*◌, ◌+◌, ◌≤◌, ◌<◌, ◌^◌, length, Err, IfOk, IfErr, OnOk};
ghost use Rattle.std.specs.Option.{unwrap_or};
ghost use Rattle.f2_disk.specs.Meter.{HasFailed};
ghost use Rattle.f2_format.specs.Geometry.{ENTRIES_A_NAT_BLOCK};
ghost use Rattle.f2_format.specs.Journal.{journal_find};
ghost use Rattle.f2_format.specs.Nat.{nat_entry};
ghost use Rattle.f2_image.specs.Images.{Image};
ghost use Rattle.f2_image.specs.Packs.{Checkpoint};
ghost use Rattle.f2_recover.specs.Told.{Tells, OnlyReads};
ghost use Rattle.f2_recover.specs.Faults.{IsRightFault};
ghost use Rattle.f2_recover.specs.Reading.{IsRead};
ghost use Rattle.f2_recover.specs.Tables.{IsCkptWith, HasEntriesMore};

use crate::blocks::read_block;
use crate::faults::MountFault;
use f2_disk::{Block, Disk};
use f2_layout::Geometry;
use f2_nat_block::{Bitmap, entry};
use f2_nat_journal::Journal;
use std::alloc::{AllocError, Global};

/// The entries of a block of the table.
const ENTRIES_A_BLOCK: u16 = 455;

/// The address of each nid, 0 where it has none: what the journal says of it, else its block in the copy that counts.
///
/// Each block of the table is read once.
pub(crate) fn read_table<D: Disk>(
    alloc: Global,
    disk: &mut D,
    g: &Geometry,
    bitmap: &Bitmap,
    journal: &Journal,
) -> Result<Vec<u32>, MountFault>
    requires device { g.now.blocks ≤ (D.meter disk.old).blocks }
    ensures table { IfOk result (λ table. (image : Image) (ckpt : Checkpoint) → Tells (D.contents disk.old) image → IsCkptWith g.now bitmap.now journal.now ckpt → IsRead (D.contents disk.old) g.now table.items image ckpt) }
    ensures size { IfOk result (λ table. length table.items ≡ ENTRIES_A_NAT_BLOCK * g.now.nat) }
    ensures fault { IfErr result (λ fault. (image : Image) (ckpt : Checkpoint) → IsRightFault image ckpt fault) }
    ensures reads { OnlyReads (D.contents disk.old) (D.meter disk.old) (D.contents disk.new) (D.meter disk.new) }
    ensures cause { result ≡ Err MountFault.Read → HasFailed (D.meter disk.old) (D.meter disk.new) }
{
    let mut table = Vec::new(alloc);
    let mut content = [0; 4096];
    for block in 0..g.nat() {
        read_block(disk, g.nat_at(block, bitmap.get(block)), &mut content)?;
        add_entries(&mut table, &content, journal)?;
    }
    Ok(table)
}

/// Appends the addresses of the nids of a block.
fn add_entries(table: &mut Vec<u32>, block: &Block, journal: &Journal) -> Result<(), AllocError>
    requires { length table.old.items < 2 ^ 31 }
    ensures { OnOk result (HasEntriesMore journal.now block.now table.old.items table.new.items ENTRIES_A_NAT_BLOCK) }
{
    for place in 0..ENTRIES_A_BLOCK {
        let nid = table.len() as u32;
        table.push(address_in(block, journal, nid, place))?;
    }
    Ok(())
}

/// The address of a nid that has this place in a block.
fn address_in(block: &Block, journal: &Journal, nid: u32, place: u16) -> u32
    requires { place < ENTRIES_A_NAT_BLOCK }
    ensures { result ≡ (unwrap_or (journal_find journal.now nid) (nat_entry block.now place)).1 }
{
    match journal.find(nid) {
        Some(found) => found.addr,
        None => entry(block, place).addr,
    }
}
