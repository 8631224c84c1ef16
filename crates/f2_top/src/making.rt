//! The command `mkfs`.
ghost use Rattle.std.specs.Prelude.{◌≡◌, IfOk, IfErr, MatchOption, map, string_bytes};
ghost use Rattle.f2_disk.specs.Faults.{Rose};
ghost use Rattle.f2_disk.specs.Meter.{HasFailed};
ghost use Rattle.f2_play.specs.Endings.{last_line};
ghost use Rattle.f2_top.specs.Making.{IsMade, IsMkfs, IsNoMkfs, MakesBy};

use crate::output::{finish, put};
use crate::player::mkfs_line;
use f2_disk::{Disk, Sink};
use f2_layout::{BadGeometry, Geometry, Limit};
use f2_mount::MakeFault;
use f2_play::Status;
use f2_script::number;
use std::alloc::Global;

/// The greatest number of blocks that words can ask for.
const LAST_NUMBER: u64 = u32::MAX as u64;

/// The sizes of the image that words ask for, which may break a limit.
#[derive(Clone, Copy, Debug, PartialEq, Eq)]
pub struct Sizes {
    /// The blocks of the image.
    pub blocks: u32,
    /// The blocks of one copy of its node address table.
    pub nat: u32,
}

/// What the words `mkfs IMAGE B N` ask for; other words ask for no image.
pub fn sizes_asked(words: &[String]) -> Option<Sizes>
    ensures { MatchOption result (IsNoMkfs (map string_bytes words.now)) (λ asked. IsMkfs (map string_bytes words.now) record { blocks = asked.blocks; nat = asked.nat }) }
{
    let [command, _, blocks, nat] = words else {
        return None;
    };
    if command.as_str() != "mkfs" {
        return None;
    }
    let blocks = number(blocks.as_bytes(), 0, LAST_NUMBER)?;
    let nat = number(nat.as_bytes(), 0, LAST_NUMBER)?;
    Some(Sizes {
        blocks: blocks as u32,
        nat: nat as u32,
    })
}

/// Makes an image of these sizes, and gives what is printed of it.
///
/// A limit that is broken, and memory that is refused, leave what reads of the disk give. After a fault of the disk
/// anything may be there.
fn make<D: Disk>(alloc: Global, disk: &mut D, asked: Sizes) -> Result<Vec<u8>, Status>
    ensures made { IfOk result (λ text. MakesBy (record { blocks = asked.blocks; nat = asked.nat }) (D.contents disk.old) (D.contents disk.new) (D.meter disk.old) (D.meter disk.new) Status.Done text.items) }
    ensures refused { IfErr result (λ status. MakesBy (record { blocks = asked.blocks; nat = asked.nat }) (D.contents disk.old) (D.contents disk.new) (D.meter disk.old) (D.meter disk.new) status (last_line status)) }
{
    let geometry = match Geometry::new(asked.blocks, asked.nat) {
        Ok(geometry) => geometry,
        Err(BadGeometry { limit, value }) => return Err(Status::Geometry { limit, value }),
    };
    if disk.flush().is_err() {
        return Err(Status::DiskFault);
    }
    let blocks = disk.blocks();
    if blocks < asked.blocks {
        return Err(Status::Geometry {
            limit: Limit::Device,
            value: blocks,
        });
    }
    let Ok(text) = mkfs_line(alloc, &geometry) else {
        return Err(Status::Memory);
    };
    match f2_mount::mkfs(alloc, disk, &geometry) {
        Ok(()) => Ok(text),
        Err(MakeFault::Write) => Err(Status::DiskFault),
        Err(MakeFault::Memory) => Err(Status::Memory),
    }
}

/// Makes an image of these sizes, and writes what is printed of it.
pub(crate) fn mkfs<K: Sink, D: Disk>(
    alloc: Global,
    sink: &mut K,
    disk: &mut D,
    asked: Sizes,
) -> Status
    ensures made { IsMade (record { blocks = asked.blocks; nat = asked.nat }) (D.contents disk.old) (D.contents disk.new) (D.meter disk.old) (D.meter disk.new) (K.written sink.old) (K.written sink.new) result }
    ensures reads_nothing { ¬ (result ≡ Status.SourceFault) }
    ensures wrote { result ≡ Status.SinkFault → Rose (K.faults sink.old) (K.faults sink.new) }
    ensures disk_fault { result ≡ Status.DiskFault → HasFailed (D.meter disk.old) (D.meter disk.new) }
{
    match make(alloc, disk, asked) {
        Ok(text) => match put(sink, text.as_slice()) {
            Ok(()) => Status::Done,
            Err(_) => Status::SinkFault,
        },
        Err(status) => finish(sink, status),
    }
}
