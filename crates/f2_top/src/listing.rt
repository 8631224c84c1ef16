//! The command `tree`.
ghost use Rattle.std.specs.Prelude.{◌≡◌, ◌↔◌, IfOk, IfErr, IsTrue, map, string_bytes};
ghost use Rattle.f2_disk.specs.Contents.{WhereTold};
ghost use Rattle.f2_disk.specs.Faults.{Rose};
ghost use Rattle.f2_disk.specs.Meter.{HasFailed};
ghost use Rattle.f2_recover.specs.declared.faults.BadImage.{BadImage};
ghost use Rattle.f2_play.specs.Endings.{last_line};
ghost use Rattle.f2_top.specs.Listing.{IsListed, IsTree, ListsBy};
ghost use Rattle.f2_top.specs.Making.{ReadsTheSame};

use crate::output::{finish, put};
use f2_disk::{Disk, Sink};
use f2_listing::{ListFault, tree_text};
use f2_mount::recover_image;
use f2_play::Status;
use f2_recover::MountFault;
use std::alloc::Global;

/// Whether words ask for the tree of an image: `tree IMAGE`.
pub fn is_tree(words: &[String]) -> bool
    ensures { IsTrue result ↔ IsTree (map string_bytes words.now) }
{
    match words {
        [command, _] => command.as_str() == "tree",
        _ => false,
    }
}

/// The status of a mount that finds no tree.
fn status_of(fault: MountFault) -> Status
    ensures bad { (bad : BadImage) → fault ≡ MountFault.Bad bad → result ≡ Status.BadImage bad }
    ensures read { fault ≡ MountFault.Read → result ≡ Status.DiskFault }
    ensures memory { fault ≡ MountFault.Memory → result ≡ Status.Memory }
{
    match fault {
        MountFault::Bad(bad) => Status::BadImage(bad),
        MountFault::Read => Status::DiskFault,
        MountFault::Memory => Status::Memory,
    }
}

/// The text of the tree that the image on a disk stands for. It flushes the disk first, as a mount does, and writes nothing.
fn text_of<D: Disk>(alloc: Global, disk: &mut D) -> Result<Vec<u8>, Status>
    ensures listed { IfOk result (λ text. ListsBy (D.contents disk.old) (D.meter disk.old) (D.meter disk.new) Status.Done text.items) }
    ensures refused { IfErr result (λ status. ListsBy (D.contents disk.old) (D.meter disk.old) (D.meter disk.new) status (last_line status)) }
    ensures kept { WhereTold (D.contents disk.old) (D.contents disk.new) ReadsTheSame }
{
    if disk.flush().is_err() {
        return Err(Status::DiskFault);
    }
    let recovered = match recover_image(alloc, disk) {
        Ok(recovered) => recovered,
        Err(fault) => return Err(status_of(fault)),
    };
    match tree_text(alloc, disk, &recovered.tree) {
        Ok(text) => Ok(text),
        Err(ListFault::Read) => Err(Status::DiskFault),
        Err(ListFault::Memory) => Err(Status::Memory),
    }
}

/// Writes the tree that the image on a disk stands for.
pub(crate) fn list<K: Sink, D: Disk>(alloc: Global, sink: &mut K, disk: &mut D) -> Status
    ensures listed { IsListed (D.contents disk.old) (D.contents disk.new) (D.meter disk.old) (D.meter disk.new) (K.written sink.old) (K.written sink.new) result }
    ensures reads_nothing { ¬ (result ≡ Status.SourceFault) }
    ensures wrote { result ≡ Status.SinkFault → Rose (K.faults sink.old) (K.faults sink.new) }
    ensures disk_fault { result ≡ Status.DiskFault → HasFailed (D.meter disk.old) (D.meter disk.new) }
{
    match text_of(alloc, disk) {
        Ok(text) => match put(sink, text.as_slice()) {
            Ok(()) => Status::Done,
            Err(_) => Status::SinkFault,
        },
        Err(status) => finish(sink, status),
    }
}
