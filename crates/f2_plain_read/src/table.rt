//! The node address table.
ghost use Rattle.std.specs.Prelude.{◌≡◌, ◌≤◌, ◌+◌, ◌*◌, ◌<◌, ◌^◌, length, Err, IfOk, OnOk};
ghost use Rattle.f2_disk.specs.Using.{IsCaused, OnlyReads};
ghost use Rattle.f2_format.specs.Geometry.{ENTRIES_A_NAT_BLOCK};
ghost use Rattle.f2_image.specs.Images.{Image};
ghost use Rattle.f2_plain_read.specs.Told.{Tells};
ghost use Rattle.f2_plain_read.specs.Points.{IsTable, HasEntriesMore};

use crate::blocks::read_block;
use crate::faults::ReadFault;
use f2_disk::{Block, Disk};
use f2_layout::Geometry;
use f2_nat_block::entry;
use std::alloc::{AllocError, Global};

/// The entries of a block of the table.
const ENTRIES_A_BLOCK: u16 = 455;

/// The address of each nid, 0 where it has none, as one copy of the table has them.
pub(crate) fn read_table<D: Disk>(
    alloc: Global,
    disk: &mut D,
    geometry: &Geometry,
    second: bool,
) -> Result<Vec<u32>, ReadFault>
    ensures table { IfOk result (λ table. (image : Image) → Tells (D.contents disk.old) image → IsTable geometry.now second image geometry.now.nat table.items) }
    ensures size { IfOk result (λ table. length table.items ≡ ENTRIES_A_NAT_BLOCK * geometry.now.nat) }
    ensures bad { result ≡ Err ReadFault.Bad → (image : Image) → Tells (D.contents disk.old) image → length image < geometry.now.blocks }
    ensures reads { OnlyReads D.contents D.meter disk.old disk.new }
    ensures cause { IsCaused ReadFault.Read result D.meter disk.old disk.new }
{
    let mut table = Vec::new(alloc);
    let mut block = Box::new(alloc, [0; 4096])?;
    for number in 0..geometry.nat() {
        read_block(disk, geometry.nat_at(number, second), &mut block)?;
        add_entries(&mut table, &block)?;
    }
    Ok(table)
}

/// Appends the addresses of a block of the table.
fn add_entries(table: &mut Vec<u32>, block: &Block) -> Result<(), AllocError>
    ensures { OnOk result (HasEntriesMore block.now table.old.items table.new.items ENTRIES_A_NAT_BLOCK) }
{
    for place in 0..ENTRIES_A_BLOCK {
        table.push(entry(block, place).addr)?;
    }
    Ok(())
}
