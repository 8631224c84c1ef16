//! The walk along the chain.

ghost use Rattle.std.specs.Prelude.{◌≡◌, ◌≢◌, ◌≤◌, ◌<◌, IfOk, IfErr, IfSome, IsTrue, OnErr, OnOk};
ghost use Rattle.f2_disk.specs.Contents.{latest};
ghost use Rattle.f2_disk.specs.Meter.{HasFailed};
ghost use Rattle.f2_disk.specs.Using.{IsCaused, OnlyReads};
ghost use Rattle.f2_format.specs.Footer.{footer_next};
ghost use Rattle.f2_format.specs.Geometry.{is_in_node};
ghost use Rattle.f2_image.specs.Images.{block_at};
ghost use Rattle.f2_scan.specs.Logs.{IsBlockFault, IsFault, IsOutside, IsRight, IsRightLog, log_from, logged_at};

use crate::faults::ScanFault;
use crate::logs::{Chain, LogBlock};
use f2_disk::{Block, Disk, DiskFault};
use f2_layout::Geometry;
use f2_node_block::read_inode;
use std::alloc::Global;

/// The node log of an image of these sizes, whose first block is looked for at `start` and whose blocks carry this
/// version.
///
/// Each block is read once, in the order of the chain, into the memory in which the chain keeps it, and there are at
/// most as many as a third of the node zone has, besides one that ends the log or is one too many. Nothing is written.
/// After a fault the disk holds what it held.
pub fn scan<D: Disk>(
    alloc: Global,
    disk: &mut D,
    g: &Geometry,
    start: u32,
    version: u64,
) -> Result<Chain, ScanFault>
    requires start { IsTrue (is_in_node g.now start) }
    requires device { g.now.blocks ≤ (D.meter disk.old).blocks }

    // Whatever the disk gives, recovery may take what is found.
    ensures sound { IfOk result (IsRightLog g.now) }
    // Of a disk that tells what it holds, it is the log of its image.
    ensures chain { IfOk result (λ chain. IfSome (D.contents disk.old)
        (λ lists. chain ≡ log_from g.now (latest lists) version start)) }
    ensures fault { IfErr result (λ fault. IfSome (D.contents disk.old)
        (λ lists. IsFault g.now (log_from g.now (latest lists) version start) fault)) }

    ensures reads { OnlyReads D.contents D.meter disk.old disk.new }
    ensures cause { IsCaused ScanFault.Read result D.meter disk.old disk.new }
{
    let most = g.cn();
    let mut log = Vec::new(alloc);
    let mut at = start;
    for _ in 0..most {
        let Some(found) = read_logged(alloc, disk, at, version)? else {
            return Ok(Chain { log });
        };
        at = checked_next(&found, g)?;
        log.push(found)?;
    }
    if read_logged(alloc, disk, at, version)?.is_some() {
        return Err(ScanFault::ChainLong { at });
    }
    Ok(Chain { log })
}

/// The block of the log at an address, or `None` where the log ends there: the address is 0, or the block carries
/// another version.
fn read_logged<D: Disk>(
    alloc: Global,
    disk: &mut D,
    at: u32,
    version: u64,
) -> Result<Option<LogBlock>, ScanFault>
    requires { at < (D.meter disk.old).blocks }

    ensures logged { IfOk result (λ found. IfSome (D.contents disk.old) (λ lists. found ≡ logged_at (latest lists) version at)) }
    ensures place { IfOk result (λ found. IfSome found (λ logged. (logged.at ≡ at) × (at ≢ 0))) }
    ensures fault { IfErr result IsOutside }

    ensures reads { OnlyReads D.contents D.meter disk.old disk.new }
    ensures cause { IsCaused ScanFault.Read result D.meter disk.old disk.new }
{
    if at == 0 {
        return Ok(None);
    }
    let mut block = Box::new(alloc, [0; 4096])?;
    read_block(disk, at, &mut block)?;
    if f2_footer::read(&block).cp_ver != version {
        return Ok(None);
    }
    Ok(Some(LogBlock { at, block }))
}

/// Reads a block.
fn read_block<D: Disk>(disk: &mut D, at: u32, into: &mut Block) -> Result<(), DiskFault>
    requires { at < (D.meter disk.old).blocks }

    ensures content { OnOk result (IfSome (D.contents disk.old) (λ lists. into.new ≡ block_at (latest lists) at)) }
    ensures reads { OnlyReads D.contents D.meter disk.old disk.new }
    ensures cause { OnErr result (HasFailed (D.meter disk.old) (D.meter disk.new)) }
{
    disk.read(at, into)
}

/// The address that a block of the log names as the next, 0 or one in the node zone, where recovery takes the block.
fn checked_next(logged: &LogBlock, g: &Geometry) -> Result<u32, ScanFault>
    ensures next { IfOk result (λ next. next ≡ footer_next logged.now.block) }
    ensures right { OnOk result (IsRight g.now logged.now) }
    ensures fault { IfErr result (IsBlockFault g.now logged.now) }
{
    let footer = f2_footer::read(&logged.block);
    if footer.offset == 0 && footer.fsync {
        if let Err(why) = read_inode(&logged.block) {
            return Err(ScanFault::BadInode { at: logged.at, why });
        }
    }
    if footer.next != 0 && !g.in_node(footer.next) {
        return Err(ScanFault::OutOfZone { at: footer.next });
    }
    Ok(footer.next)
}
