//! Events of a seat's call that ask nothing of the disk.
ghost use Rattle.std.specs.Prelude.{◌≡◌, IfSome, IfNone};
ghost use Rattle.f2_disk.specs.Using.{OnlyReads};
ghost use Rattle.f2_flights.specs.Parts.{flight_of};
ghost use Rattle.f2_model.specs.declared.events.Answer.TheVariants.{Stepped};
ghost use Rattle.f2_model.specs.declared.events.Event.TheVariants as events;
ghost use Rattle.f2_state.specs.Following.{Follows};
ghost use Rattle.f2_state.specs.Idling.{AsksMore, waited_for};

use crate::volume::Volume;
use f2_disk::Disk;
use f2_files::Files;
use f2_flights::{Flight, Part};
use f2_model::{Mode, Reply, Step};

/// The position that a call waits for before it goes on.
fn waits_for(files: &Files, flight: &Flight) -> Option<u32>
    ensures { result ≡ waited_for files.now.flights (flight_of flight.now) }
{
    match flight {
        Flight::Fsync { progress, .. } => match (progress.part, progress.slot) {
            (Part::Marked, None) => files.gap_below(progress.position),
            _ => None,
        },
        Flight::Check { .. } => None,
    }
}

impl<D: Disk> Volume<D> {
    /// One event of a seat's call that asks nothing of the disk, or `None` where its next event does: no call is in
    /// flight, the volume was closed since it began, or its mark waits for a node block of another fsync.
    pub fn go_idle(&mut self, seat: u8) -> Option<Step>
        ensures follows { IfSome result (λ step. Follows D.contents D.meter self.old self.new (events.Go seat) (Stepped step)) }
        ensures disk { OnlyReads D.contents D.meter self.old.disk self.new.disk }
        ensures more { IfNone result (AsksMore self.old seat) }
        ensures unchanged { IfNone result (self.new ≡ self.old) }
    {
        let Some(flight) = self.files.flight(seat) else {
            return Some(Step::None);
        };
        if let Mode::Shut = self.mode {
            self.files.leave(seat);
            return Some(Step::Replied(Reply::Closed));
        }
        let position = waits_for(&self.files, &flight)?;
        Some(Step::Again(position))
    }
}
