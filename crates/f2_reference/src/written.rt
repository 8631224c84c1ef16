//! How much of the node log was written.
ghost use Rattle.std.specs.Prelude.{◌≡◌, ◌&&◌, ◌||◌, is_some, IfOk};
ghost use Rattle.std.specs.Option.{option_map};
ghost use Rattle.f2_model.specs.Step as machine;
ghost use Rattle.f2_reference.specs.Written.{is_marked, lost_place, written_place};
ghost use Rattle.f2_flights.specs.Parts.{flight_of, progress_of};

use f2_flights::{Flight, Part, Progress};
use f2_reference_state::Plain;
use std::alloc::{AllocError, Global};

/// Whether an fsync drew its mark, and this isn't written or has to wait for a block before it.
fn is_lost(plain: &Plain, progress: Progress) -> bool
    ensures { result ≡ (is_marked (progress_of progress).part && (is_some (progress_of progress).slot || is_some (machine.gap_below plain.now.state progress.position))) }
{
    matches!(progress.part, Part::Marked)
        && (progress.slot.is_some() || plain.flights().gap_below(progress.position).is_some())
}

/// The place of a mark that isn't written, or has to wait for a block before it.
fn lost_place(plain: &Plain, flight: Flight) -> Option<usize>
    ensures { result ≡ lost_place plain.now.state (flight_of flight) }
{
    match flight {
        Flight::Fsync { progress, .. } => {
            if is_lost(plain, progress) {
                Some(progress.place)
            } else {
                None
            }
        }
        Flight::Check { .. } => None,
    }
}

/// The place up to which each mark was written, with everything before it.
pub(crate) fn written_place(alloc: Global, plain: &Plain) -> Result<usize, AllocError>
    ensures { IfOk result (λ place. place ≡ written_place plain.now.state) }
{
    let flights = plain.flights().all(alloc)?;
    let mut place = plain.marks().len();
    for flight in flights.as_slice() {
        if let Some(lost) = lost_place(plain, *flight) {
            place = place.min(lost);
        }
    }
    Ok(place)
}
