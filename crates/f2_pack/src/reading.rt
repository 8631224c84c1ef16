//! Reading a pack.

ghost use Rattle.std.specs.Prelude.{◌≡◌, ◌≤◌, ◌<◌, ◌↔◌, IfOk, IfSome, IsTrue, OnErr, OnOk};
ghost use Rattle.f2_disk.specs.Contents.{latest};
ghost use Rattle.f2_disk.specs.Meter.{HasFailed};
ghost use Rattle.f2_disk.specs.Using.{IsCaused, OnlyReads};
ghost use Rattle.f2_pack.specs.Packs.{IsPackOf, block_at};

use crate::heads::{is_head, read_head};
use crate::packs::{Pack, Side};
use f2_bytes::Block;
use f2_disk::{Disk, DiskFault, ReadFault};
use f2_layout::Geometry;
use std::alloc::Global;

/// The pack on a side of the image, or `None` exactly where that isn't valid (validate_checkpoint of checkpoint.c).
///
/// It takes memory for two blocks, reads at most three, and writes nothing. The disk has at least the blocks of the
/// geometry.
pub fn read_pack<D: Disk>(
    alloc: Global,
    disk: &mut D,
    g: &Geometry,
    side: Side,
) -> Result<Option<Pack>, ReadFault>
    requires { g.now.blocks ≤ (D.meter disk.old).blocks }

    ensures pack { IfOk result (λ found. IfSome (D.contents disk.old)
        (λ lists. IsPackOf g.now (latest lists) side found)) }

    ensures reads { OnlyReads D.contents D.meter disk.old disk.new }
    ensures cause { IsCaused ReadFault.Read result D.meter disk.old disk.new }
{
    let start = side.start();
    let blocks = g.blocks();
    prove!(start + 2 < blocks);
    let mut head = Box::new(alloc, [0; 4096])?;
    let mut other = Box::new(alloc, [0; 4096])?;
    read_block(disk, start, &mut head)?;
    if !is_head(&head, g) {
        return Ok(None);
    }
    read_block(disk, start + 2, &mut other)?;
    if !is_same(&head, &other) {
        return Ok(None);
    }
    read_block(disk, start + 1, &mut other)?;
    Ok(Some(Pack {
        head: read_head(&head),
        summary: *other,
    }))
}

/// Reads a block.
fn read_block<D: Disk>(disk: &mut D, at: u32, into: &mut Block) -> Result<(), DiskFault>
    requires { at < (D.meter disk.old).blocks }

    ensures content { OnOk result (IfSome (D.contents disk.old) (λ lists. into.new ≡ block_at (latest lists) at)) }
    ensures reads { OnlyReads D.contents D.meter disk.old disk.new }
    ensures cause { OnErr result (HasFailed (D.meter disk.old) (D.meter disk.new)) }
{
    disk.read(at, into)
}

/// Whether two blocks have the same bytes.
fn is_same(a: &Block, b: &Block) -> bool
    ensures { IsTrue result ↔ (a.now ≡ b.now) }
{
    a == b
}
