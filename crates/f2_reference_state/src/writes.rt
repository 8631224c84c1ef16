//! What an fsync and the flusher write.
ghost use Rattle.std.specs.Prelude.{◌≡◌, ◌+◌, ◌<◌, [], ◌∷◌, length, IsSome, None, IfOk, OnOk, OnErr};
ghost use Rattle.std.specs.FinMap as map;
ghost use Rattle.std.specs.Option.{option_map};
ghost use Rattle.f2_model.specs.State.{InFsync, in_nodes};
ghost use Rattle.f2_model.specs.Step as machine;
ghost use Rattle.f2_model.specs.declared.histories.Entry.TheVariants as entry;
ghost use Rattle.f2_flights.specs.Parts.{flight_of, progress_of, slot_of};
ghost use Rattle.f2_reference_state.specs.Seen.{told, after_turn};

use crate::marks::Mark;
use crate::plain::Plain;
use f2_flights::{Drawn, Flight, Part, Progress, Slot};
use f2_model::{Entry, Row};
use std::alloc::AllocError;

/// One more than a count, where there are more entries than it counts.
fn one_more(count: usize, entries: usize) -> usize
    requires { count < entries }
    ensures { result ≡ count + 1 }
{
    let _entries = entries;
    count + 1
}

/// An fsync of a file that has its nodes to write, and has this position open.
fn at_nodes(ino: u32, slot: Option<Slot>) -> Flight
    ensures { flight_of result ≡ InFsync ino (in_nodes (option_map slot_of slot)) }
{
    let progress = Progress {
        part: Part::Nodes,
        place: 0,
        position: 0,
        slot,
    };
    Flight::Fsync { ino, progress }
}

impl Plain {
    /// The next position of the node log; none that a `u32` doesn't hold is ever drawn, since a zone has fewer blocks.
    fn next_position(&self) -> Result<u32, AllocError>
        ensures { IfOk result (λ position. position ≡ self.now.state.node_writes) }
    {
        u32::try_from(self.node_writes).map_err(|_| AllocError)
    }

    /// A page of a file was written. Where memory is refused nothing changed.
    pub fn page_written(&mut self, ino: u32, page: u32) -> Result<(), AllocError>
        ensures ok { OnOk result (self.new ≡ told self.old (entry.WrotePage ino page ∷ []) [] (machine.page_written self.old.state ino page)) }
        ensures err { OnErr result (self.new ≡ self.old) }
    {
        self.history.room(1)?;
        self.history.add(Entry::WrotePage { ino, page }, None);
        self.data_writes = one_more(self.data_writes, self.history.len());
        self.dirty_pages.remove(ino, page);
        Ok(())
    }

    /// A direct node of a file was given the next position of the node log, and written there. Where memory is refused
    /// nothing changed.
    pub fn node_logged(&mut self, ino: u32, offset: u32) -> Result<(), AllocError>
        ensures ok { OnOk result (self.new ≡ told self.old (entry.WroteNode ino offset ∷ []) [] (machine.node_logged self.old.state ino offset)) }
        ensures err { OnErr result (self.new ≡ self.old) }
    {
        self.history.room(1)?;
        self.logged.insert(ino)?;
        self.history.add(Entry::WroteNode { ino, offset }, None);
        self.node_writes = one_more(self.node_writes, self.history.len());
        self.dirty_nodes.remove(ino, offset);
        Ok(())
    }

    /// An fsync flushed its pages, and has its nodes to write. Where memory is refused nothing changed.
    pub fn flushed(&mut self, seat: u8, ino: u32) -> Result<(), AllocError>
        ensures ok { OnOk result (self.new ≡ told self.old (entry.Flushed seat ∷ []) [] (machine.with_progress self.old.state seat ino (in_nodes None))) }
        ensures err { OnErr result (self.new ≡ self.old) }
    {
        self.history.room(1)?;
        self.flights.insert(seat, at_nodes(ino, None))?;
        self.history.add(Entry::Flushed { seat }, None);
        Ok(())
    }

    /// A direct node of a file in fsync is given the next position of the node log, which this answers. Where memory is
    /// refused nothing changed.
    pub fn node_drawn(&mut self, seat: u8, ino: u32, offset: u32) -> Result<u32, AllocError>
        requires { IsSome (map.get self.old.state.flights seat) }
        ensures position { IfOk result (λ position. position ≡ self.old.state.node_writes) }
        ensures ok { OnOk result (self.new ≡ after_turn self.old (machine.node_drawn self.old.state seat ino offset)) }
        ensures err { OnErr result (self.new ≡ self.old) }
    {
        let position = self.next_position()?;
        self.node_logged(ino, offset)?;
        let drawn = Drawn::Node(offset);
        let slot = Slot { position, drawn };
        self.flights.set(seat, at_nodes(ino, Some(slot)));
        Ok(position)
    }

    /// The marked inode of a file in fsync is given the next position of the node log, which this answers, and its row
    /// joins the marks. Where memory is refused nothing changed.
    pub fn mark_drawn(&mut self, seat: u8, ino: u32, row: Row) -> Result<u32, AllocError>
        requires { IsSome (map.get self.old.state.flights seat) }
        ensures position { IfOk result (λ position. position ≡ self.old.state.node_writes) }
        ensures ok { OnOk result (self.new ≡ after_turn self.old (machine.mark_drawn self.old.state seat ino row)) }
        ensures err { OnErr result (self.new ≡ self.old) }
    {
        let position = self.next_position()?;
        self.history.room(1)?;
        self.marks.reserve(1)?;
        self.logged.insert(ino)?;
        let drawn = Drawn::Mark;
        let progress = Progress {
            part: Part::Marked,
            place: self.marks.len(),
            position,
            slot: Some(Slot { position, drawn }),
        };
        self.marks.push_reserved(Mark { ino, row });
        self.flights.set(seat, Flight::Fsync { ino, progress });
        self.history.add(Entry::Mark { seat, ino }, None);
        self.node_writes = one_more(self.node_writes, self.history.len());
        Ok(position)
    }

    /// The block at the open position of an fsync was written.
    pub fn submitted(&mut self, seat: u8, ino: u32, progress: Progress)
        requires { IsSome (map.get self.old.state.flights seat) }
        ensures { self.new ≡ record self.old { state = machine.with_progress self.old.state seat ino (record (progress_of progress) { slot = None }) } }
    {
        let progress = Progress {
            slot: None,
            ..progress
        };
        self.flights.set(seat, Flight::Fsync { ino, progress });
    }

    /// An fsync made its last flush: every mark up to its own is acknowledged. Where memory is refused
    /// nothing changed.
    pub fn acknowledges(&mut self, seat: u8, ino: u32, progress: Progress) -> Result<(), AllocError>
        requires { progress.place < length self.old.state.marks }
        ensures ok { OnOk result (self.new ≡ after_turn self.old (machine.acknowledges self.old.state seat ino (progress_of progress))) }
        ensures err { OnErr result (self.new ≡ self.old) }
    {
        self.history.room(1)?;
        self.acknowledged = self.acknowledged.max(progress.place + 1);
        self.flights.remove(seat);
        self.history.add(Entry::Ack { seat, ino }, None);
        Ok(())
    }
}
