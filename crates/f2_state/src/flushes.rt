//! The flushes of an fsync.
ghost use Rattle.std.specs.Prelude.{◌≡◌, ◌≤◌, None, OnOk, OnErr};
ghost use Rattle.std.specs.FinMap as map;
ghost use Rattle.f2_model.specs.State.{InFsync, in_nodes};
ghost use Rattle.f2_model.specs.declared.events.Event.TheVariants as events;
ghost use Rattle.f2_model.specs.declared.histories.CallKind.TheVariants as kind;
ghost use Rattle.f2_model.specs.declared.histories.Entry.TheVariants as entry;
ghost use Rattle.f2_model.specs.declared.modes.Mode.TheVariants.{Shut, Up};
ghost use Rattle.f2_model.specs.declared.replies.Reply.TheVariants as replies;
ghost use Rattle.f2_model.specs.declared.replies.Step.TheVariants as steps;
ghost use Rattle.f2_state.specs.Following.{Follows};
ghost use Rattle.f2_state.specs.Flushing.{Closes, ComesTo, FlushesOnce, HasWrittenMark, HasWrittenPages, answer_of};

use crate::volume::Volume;
use f2_disk::{Disk, DiskFault};
use f2_files::Files;
use f2_flights::{Flight, Part, Progress};
use f2_model::{CallKind, Entry, Log, Mode};

/// How far an fsync is whose pages are flushed.
const IN_NODES: Progress = Progress {
    part: Part::Nodes,
    place: 0,
    position: 0,
    slot: None,
};

/// Flushes a disk, and closes its volume where that fails: the seat whose event it was leaves, and the history tells the
/// disk's count of faults since.
fn flush<D: Disk>(
    disk: &mut D,
    mode: &mut Mode,
    files: &mut Files,
    history: &mut Log,
    seat: u8,
) -> Result<(), DiskFault>
    requires room { 1 ≤ history.old.spare }
    ensures disk { FlushesOnce D.contents D.meter disk.old disk.new result }
    ensures made { OnOk result ((mode.new ≡ mode.old) × (files.new ≡ files.old) × (history.new ≡ history.old)) }
    ensures failed { OnErr result (Closes seat (D.meter disk.new).faults mode.new files.old files.new history.old history.new) }
{
    if let Err(fault) = disk.flush() {
        let count = disk.faults();
        let kind = CallKind::Flush;
        *mode = Mode::Shut;
        files.leave(seat);
        history.add(Entry::Fault { seat, kind, count }, None);
        return Err(fault);
    }
    Ok(())
}

impl<D: Disk> Volume<D> {
    /// The first flush of a seat's fsync, once no page of its file is dirty any more: the pages outlast a crash before a
    /// node block that tells where they stand is written.
    ///
    /// Where the flush fails the volume is closed, and the seat's call is over. It takes no memory.
    pub fn flush_pages(&mut self, seat: u8, ino: u32) -> Result<(), DiskFault>
        requires room { 1 ≤ self.old.history.spare }
        requires written { HasWrittenPages self.old seat ino }
        ensures follows { Follows D.contents D.meter self.old self.new (events.Go seat) (answer_of steps.Flushed result) }
        ensures made { OnOk result (ComesTo self.old self.new Up (map.insert self.old.files.flights seat (InFsync ino (in_nodes None))) (entry.Flushed seat)) }
        ensures failed { OnErr result (ComesTo self.old self.new Shut (map.remove self.old.files.flights seat) (entry.Fault seat kind.Flush (D.meter self.new.disk).faults)) }
        ensures disk { FlushesOnce D.contents D.meter self.old.disk self.new.disk result }
    {
        flush(
            &mut self.disk,
            &mut self.mode,
            &mut self.files,
            &mut self.history,
            seat,
        )?;
        let progress = IN_NODES;
        self.files.progress(seat, Flight::Fsync { ino, progress });
        self.history.add(Entry::Flushed { seat }, None);
        Ok(())
    }

    /// The last flush of a seat's fsync, once its mark is written and each position of the node log below: every mark up to
    /// its own outlasts a crash, and the call is over.
    ///
    /// Where the flush fails nothing is acknowledged, the volume is closed, and the seat's call is over all the same. It
    /// takes no memory.
    pub fn acknowledge(&mut self, seat: u8, ino: u32) -> Result<(), DiskFault>
        requires room { 1 ≤ self.old.history.spare }
        requires written { HasWrittenMark self.old seat ino }
        ensures follows { Follows D.contents D.meter self.old self.new (events.Go seat) (answer_of (steps.Replied replies.Roll) result) }
        ensures made { OnOk result (ComesTo self.old self.new Up (map.remove self.old.files.flights seat) (entry.Ack seat ino)) }
        ensures failed { OnErr result (ComesTo self.old self.new Shut (map.remove self.old.files.flights seat) (entry.Fault seat kind.Flush (D.meter self.new.disk).faults)) }
        ensures disk { FlushesOnce D.contents D.meter self.old.disk self.new.disk result }
    {
        flush(
            &mut self.disk,
            &mut self.mode,
            &mut self.files,
            &mut self.history,
            seat,
        )?;
        self.files.leave(seat);
        self.history.add(Entry::Ack { seat, ino }, None);
        Ok(())
    }
}
