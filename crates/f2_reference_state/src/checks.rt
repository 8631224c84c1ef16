//! Fsyncs and checkpoints begin, and checkpoints go on.
ghost use Rattle.std.specs.Prelude.{◌≡◌, ◌-◌, ◌<◌, [], ◌∷◌, OnOk, OnErr, Some};
ghost use Rattle.std.specs.FinMap as map;
ghost use Rattle.f2_model.specs.State.{InFsync, fresh_progress, number_of};
ghost use Rattle.f2_model.specs.Step as machine;
ghost use Rattle.f2_model.specs.declared.histories.Entry.TheVariants as entry;
ghost use Rattle.f2_reference_state.specs.Seen.{told, after_turn};

use crate::plain::Plain;
use f2_flights::{Flight, Part, Progress};
use f2_model::{BoxedRequest, Entry, Format, MOUNT_SEAT, Mode, Plan, Tree};
use std::alloc::AllocError;

impl Plain {
    /// An fsync of a file begins. Where memory is refused nothing changed.
    pub fn begins_fsync(
        &mut self,
        seat: u8,
        request: BoxedRequest,
        ino: u32,
    ) -> Result<(), AllocError>
        ensures ok { OnOk result (self.new ≡ told self.old (entry.Begin seat request ∷ []) [] (record self.old.state { flights = map.insert self.old.state.flights seat (InFsync ino fresh_progress) })) }
        ensures err { OnErr result (self.new ≡ self.old) }
    {
        self.history.room(1)?;
        let progress = Progress {
            part: Part::Pages,
            place: 0,
            position: 0,
            slot: None,
        };
        let flight = Flight::Fsync { ino, progress };
        self.flights.insert(seat, flight)?;
        self.history.add(Entry::Begin { seat, request }, None);
        Ok(())
    }

    /// A checkpoint of the base's format begins, which is to write some blocks before its tail. Where memory is refused
    /// nothing changed.
    pub fn begins_check(
        &mut self,
        seat: u8,
        request: BoxedRequest,
        plan: Plan,
        blocks: u32,
    ) -> Result<(), AllocError>
        ensures ok { OnOk result (self.new ≡ record (told self.old (entry.Begin seat request ∷ entry.CpBegin seat plan ∷ []) (number_of self.old.state.format ∷ []) (machine.checking self.old.state seat plan)) { blocks = blocks }) }
        ensures err { OnErr result (self.new ≡ self.old) }
    {
        self.history.room(2)?;
        self.flights.insert(seat, Flight::Check { plan })?;
        let format = self.format.number();
        self.history.add(Entry::Begin { seat, request }, None);
        self.history
            .add(Entry::CpBegin { seat, plan }, Some(format));
        self.next_format = self.format;
        self.blocks = blocks;
        Ok(())
    }

    /// The checkpoint begins with which the volume is closed: of this format, and with some blocks before its tail. Where
    /// memory is refused nothing changed.
    pub fn begins_close(&mut self, format: Format, blocks: u32) -> Result<(), AllocError>
        ensures ok { OnOk result (self.new ≡ record (after_turn self.old (machine.closing self.old.state format)) { blocks = blocks }) }
        ensures err { OnErr result (self.new ≡ self.old) }
    {
        self.history.room(1)?;
        let (seat, plan) = (MOUNT_SEAT, Plan::Sync);
        self.flights.insert(seat, Flight::Check { plan })?;
        self.history
            .add(Entry::CpBegin { seat, plan }, Some(format.number()));
        self.next_format = format;
        self.blocks = blocks;
        Ok(())
    }

    /// A checkpoint wrote a block.
    pub fn wrote_block(&mut self)
        requires { 0 < self.old.blocks }
        ensures { self.new ≡ record self.old { blocks = self.old.blocks - 1 } }
    {
        self.blocks -= 1;
    }

    /// A checkpoint wrote its tail, and this tree is pending. Where memory is refused nothing changed.
    pub fn wrote_tail(&mut self, seat: u8, tree: Tree) -> Result<(), AllocError>
        ensures ok { OnOk result (self.new ≡ told self.old (entry.CpTail seat ∷ []) [] (record self.old.state { pending = Some tree })) }
        ensures err { OnErr result (self.new ≡ self.old) }
    {
        self.history.room(1)?;
        self.history.add(Entry::CpTail { seat }, None);
        self.pending = Some(tree);
        Ok(())
    }

    /// A checkpoint made its last flush: the tree, of which an equal one is given, is the base. Where memory is
    /// refused, or the version is at its end, nothing changed.
    pub fn completes(&mut self, seat: u8, plan: Plan, base: Tree) -> Result<(), AllocError>
        requires { base ≡ self.old.state.live }
        ensures ok { OnOk result (self.new ≡ after_turn self.old (machine.completes self.old.state seat plan)) }
        ensures err { OnErr result (self.new ≡ self.old) }
    {
        let version = self.version.checked_add(1).ok_or(AllocError)?;
        self.history.room(2)?;
        self.history.add(Entry::CpDone { seat }, None);
        if self.mode == Mode::Up && seat == MOUNT_SEAT {
            self.history.add(Entry::Unmounted, None);
            self.mode = Mode::Shut;
        } else {
            self.mode = Mode::Up;
        }
        self.flights.remove(seat);
        self.base = base;
        self.format = self.next_format;
        self.version = version;
        self.forget();
        Ok(())
    }

    /// A seat's call is over.
    pub fn leaves(&mut self, seat: u8)
        ensures { self.new ≡ record self.old { state = machine.without_call self.old.state seat } }
    {
        self.flights.remove(seat);
    }
}
