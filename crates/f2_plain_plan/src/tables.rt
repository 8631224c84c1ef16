//! The node address table.
ghost use Rattle.std.specs.Prelude.{◌≡◌, ◌+◌, ◌*◌, ◌<◌, ℕ, OnOk};
ghost use Rattle.std.specs.FinMap as map;
ghost use Rattle.f2_format.specs.Geometry.{ENTRIES_A_NAT_BLOCK};
ghost use Rattle.f2_format.specs.Nat.{nat_entry};
ghost use Rattle.f2_laid.specs.Laid.{at_of};
ghost use Rattle.f2_plain_plan.specs.Tables.{AddsTables};

use f2_disk::Block;
use f2_laid::{Places, Planned};
use f2_layout::Geometry;
use f2_nat_block::{NatEntry, set};
use std::alloc::AllocError;

const ENTRIES_A_BLOCK: u32 = 455;

/// What the table says of a nid: every node is an inode.
fn entry_of(places: &Places, nid: u32) -> NatEntry
    ensures { result.addr ≡ at_of (map.get places.now nid) }
{
    match places.get(nid) {
        Some(place) => NatEntry {
            ino: nid,
            addr: place.at,
        },
        None => NatEntry::default(),
    }
}

/// A block of the table.
fn table_block(places: &Places, block: u32) -> Block
    requires { block < 1024 }
    ensures { (place : ℕ) → place < ENTRIES_A_NAT_BLOCK → (nat_entry result place).1 ≡ at_of (map.get places.now (ENTRIES_A_NAT_BLOCK * block + place)) }
{
    let mut bytes = [0; 4096];
    let first = ENTRIES_A_BLOCK * block;
    for place in 0..ENTRIES_A_BLOCK {
        set(&mut bytes, place as u16, entry_of(places, first + place));
    }
    bytes
}

/// Plans all blocks of one copy of the table.
pub(crate) fn add_tables(
    blocks: &mut Vec<Planned>,
    geometry: &Geometry,
    second: bool,
    places: &Places,
) -> Result<(), AllocError>
    ensures { OnOk result (AddsTables geometry.now second places.now geometry.now.nat blocks.old.items blocks.new.items) }
{
    for block in 0..geometry.nat() {
        blocks.push(Planned {
            at: geometry.nat_at(block, second),
            block: table_block(places, block),
        })?;
    }
    Ok(())
}
