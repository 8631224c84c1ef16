//! The pack of a checkpoint.
ghost use Rattle.std.specs.Prelude.{◌≡◌, ◌^◌, ◌<◌, ◌≤◌, ℕ, OnOk, IsTrue};
ghost use Rattle.f2_format.specs.Geometry.{is_in_node};
ghost use Rattle.f2_format.specs.Journal.{journal_count};
ghost use Rattle.f2_format.specs.Nat.{is_second_copy};
ghost use Rattle.f2_image.specs.Packs.{head_address};
ghost use Rattle.f2_laid.specs.Laid.{side_of};
ghost use Rattle.f2_plain_plan.specs.Packs.{AddsPack, IsHead};

use crate::plans::Next;
use f2_disk::Block;
use f2_laid::Planned;
use f2_nat_block::Bitmap;
use f2_nat_journal::Journal;
use f2_pack::{Head, Side, write_head};
use std::alloc::AllocError;

/// Where the pack of a side begins: its head, its summary and its tail.
fn start_of(side: Side) -> u32
    ensures { result ≡ head_address (side_of side) }
{
    match side {
        Side::A => 2,
        Side::B => 5,
    }
}

/// The summary of a pack whose journal has no entry.
fn summary() -> Block
    ensures { journal_count result ≡ 0 }
{
    let mut block = [0; 4096];
    Journal::new().write(&mut block);
    block
}

/// The bitmap by which the same copy of each of so many blocks of the node address table counts.
fn bitmap(nat: u32, second: bool) -> Bitmap
    requires { nat ≤ 1024 }
    ensures { (table : ℕ) → table < nat → is_second_copy result table ≡ second }
{
    let mut bitmap = Bitmap::new();
    if second {
        for block in 0..nat {
            bitmap.flip(block);
        }
    }
    bitmap
}

/// The flags of a head in the newer format.
const NEWER_FORMAT: u32 = 1;

/// The head of the pack, which is as well its tail.
pub(crate) fn head(next: &Next, log_start: u32) -> Block
    requires version { 1 ≤ next.now.version }
    requires low { next.now.version < 2 ^ 32 }
    requires log_start { IsTrue (is_in_node next.now.geometry log_start) }
    ensures { IsHead next.now result }
{
    let nat = next.geometry.nat();
    let head = Head {
        version: next.version,
        log_start,
        flags: NEWER_FORMAT,
        bitmap: bitmap(nat, next.second),
    };
    let mut block = [0; 4096];
    write_head(&mut block, &head, nat);
    block
}

/// Plans the summary and the head of the pack of a side.
pub(crate) fn add_pack(
    blocks: &mut Vec<Planned>,
    side: Side,
    head: &Block,
) -> Result<(), AllocError>
    ensures { OnOk result (AddsPack (side_of side) head.now blocks.old.items blocks.new.items) }
{
    let start = start_of(side);
    blocks.push(Planned {
        at: start + 1,
        block: summary(),
    })?;
    blocks.push(Planned {
        at: start,
        block: *head,
    })?;
    Ok(())
}
