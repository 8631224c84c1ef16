//! Calls that change nothing.
ghost use Rattle.std.specs.Prelude.{◌≡◌, ◌≤◌, true, None, IfOk};
ghost use Rattle.f2_disk.specs.Using.{IsCaused, OnlyReads};
ghost use Rattle.f2_image_laws.specs.Rolled.{image_limits};
ghost use Rattle.f2_model.specs.Call.{answer, refusal};
ghost use Rattle.f2_model.specs.State.{State};
ghost use Rattle.f2_model.specs.Step as machine;
ghost use Rattle.f2_model.specs.declared.events.Event.TheVariants as events;
ghost use Rattle.f2_state.specs.Barred.{IsLetIn};
ghost use Rattle.f2_state.specs.Following.{AdvancesFrom, Follows, faults_between};
ghost use Rattle.f2_state.specs.Looks.{IsKeptBut, IsLook, MayLeave, OnlyLooks};
ghost use Rattle.f2_state.specs.Standing.{StandsIn, is_between};

use crate::barring::Barred;
use crate::entries::{add_did, add_unread};
use crate::volume::Volume;
use f2_disk::{Disk, ReadFault};
use f2_model::{BoxedRequest, Reply, Request};

impl<D: Disk> Volume<D> {
    /// A seat's `read` or `list`: what it tells, or why it isn't served.
    ///
    /// It leaves one entry in the history where it is served or refused, and one more of the fault where a read of the disk
    /// failed. Nothing else changes but which clean pages are kept; where memory is refused no entry is left either.
    pub fn look(&mut self, seat: u8, request: Request) -> Reply
        requires seat { machine.IsSeat seat }
        requires look { IsLook request }
        ensures follows { Follows D.contents D.meter self.old self.new (events.Begin seat request) (machine.replied result) }
        ensures rest { IsKeptBut self.old self.new }
        ensures leaves { MayLeave seat request result (faults_between (D.meter self.old.disk) (D.meter self.new.disk)) self.old.history.entries self.new.history.entries }
        ensures reads { OnlyReads D.contents D.meter self.old.disk self.new.disk }
    {
        if self.history.room(2).is_err() {
            return Reply::Memory;
        }
        let Ok(request) = BoxedRequest::new(self.alloc, request) else {
            return Reply::Memory;
        };
        self.look_with_room(seat, request)
    }

    /// The same where the history has room for what it may leave.
    fn look_with_room(&mut self, seat: u8, request: BoxedRequest) -> Reply
        requires seat { machine.IsSeat seat }
        requires look { IsLook request }
        requires room { 2 ≤ self.old.history.spare }
        ensures advances { (start from : State) → StandsIn (D.contents self.old.disk) self.old from → AdvancesFrom D.contents D.meter self.old self.new (events.Begin seat request) (machine.replied result) start from }
        ensures rest { IsKeptBut self.old self.new }
        ensures leaves { MayLeave seat request result (faults_between (D.meter self.old.disk) (D.meter self.new.disk)) self.old.history.entries self.new.history.entries }
        ensures reads { OnlyReads D.contents D.meter self.old.disk self.new.disk }
    {
        match self.barred(seat, request.get()) {
            Some(Barred::Unheard(reply)) => reply,
            Some(Barred::Refused(reply)) => {
                add_did(&mut self.history, seat, request, &reply);
                reply
            }
            None => self.serve_look(seat, request),
        }
    }

    /// The same where nothing keeps it off.
    fn serve_look(&mut self, seat: u8, request: BoxedRequest) -> Reply
        requires seat { machine.IsSeat seat }
        requires look { IsLook request }
        requires room { 2 ≤ self.old.history.spare }
        ensures advances { (start from : State) → StandsIn (D.contents self.old.disk) self.old from → IsLetIn (image_limits self.old.geometry) from seat request → AdvancesFrom D.contents D.meter self.old self.new (events.Begin seat request) (machine.replied result) start from }
        ensures rest { IsKeptBut self.old self.new }
        ensures leaves { MayLeave seat request result (faults_between (D.meter self.old.disk) (D.meter self.new.disk)) self.old.history.entries self.new.history.entries }
        ensures reads { OnlyReads D.contents D.meter self.old.disk self.new.disk }
    {
        match self.seen(request.get()) {
            Ok(reply) => {
                add_did(&mut self.history, seat, request, &reply);
                reply
            }
            Err(ReadFault::Memory) => Reply::Memory,
            Err(ReadFault::Read) => {
                let count = self.disk.faults();
                add_unread(&mut self.history, seat, request, count);
                Reply::ReadFault
            }
        }
    }

    /// What a read or a list tells that nothing keeps off.
    fn seen(&mut self, request: &Request) -> Result<Reply, ReadFault>
        requires { IsLook request.now }
        ensures content { IfOk result (λ told. (from : State) → StandsIn (D.contents self.old.disk) self.old from → is_between from ≡ true → refusal (image_limits self.old.geometry) from.live request.now ≡ None
            → told ≡ answer from.live request.now) }
        ensures looks { OnlyLooks D.contents D.meter self.old self.new }
        ensures cause { IsCaused ReadFault.Read result D.meter self.old.disk self.new.disk }
    {
        match request {
            Request::Read { path, off, len } => self.read(path, *off, *len),
            Request::List { path } => Ok(self.list(path)?),
            _ => unreachable!(),
        }
    }
}
