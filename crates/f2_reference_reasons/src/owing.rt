//! What fsyncs have to write.
ghost use Rattle.std.specs.Prelude.{◌≡◌, ◌^◌, ◌≤◌, ◌<◌, IfOk};
ghost use Rattle.f2_model.specs.Fallback as machine;
ghost use Rattle.f2_flights.specs.Parts.{flight_of};
ghost use Rattle.f2_reference_reasons.specs.Boths.{both_of};

use crate::boths::Both;
use f2_flights::{Flight, Part, Progress};
use f2_reference_state::Plain;
use std::alloc::{AllocError, Global};

/// What one more fsync of a file has to write: its dirty pages, and its dirty direct nodes and the inode.
pub fn needed(plain: &Plain, ino: u32) -> Both
    ensures exact { both_of result ≡ machine.needed plain.now.state ino }
    ensures nodes { result.nodes ≤ 2 ^ 64 }
    ensures pages { result.pages ≤ 2 ^ 64 }
{
    Both {
        nodes: plain.dirty_nodes().count_of(ino) as u128 + 1,
        pages: plain.dirty_pages().count_of(ino) as u128,
    }
}

/// What a call in flight has still to write.
fn owed_by(plain: &Plain, flight: Flight) -> Both
    ensures exact { both_of result ≡ machine.owed_by plain.now.state (flight_of flight) }
    ensures nodes { result.nodes ≤ 2 ^ 64 }
    ensures pages { result.pages ≤ 2 ^ 64 }
{
    match flight {
        Flight::Fsync {
            ino,
            progress: Progress {
                part: Part::Marked,
                ..
            },
        } => Both {
            nodes: plain.dirty_nodes().count_of(ino) as u128,
            pages: plain.dirty_pages().count_of(ino) as u128,
        },
        Flight::Fsync { ino, .. } => needed(plain, ino),
        Flight::Check { .. } => Both::none(),
    }
}

/// What the calls in flight have still to write.
#[tactic(auto, using(crate::proofs::Left::next_item))]
pub fn owed(alloc: Global, plain: &Plain) -> Result<Both, AllocError>
    ensures exact { IfOk result (λ both. both_of both ≡ machine.owed plain.now.state) }
    ensures nodes { IfOk result (λ both. both.nodes < 2 ^ 127) }
    ensures pages { IfOk result (λ both. both.pages < 2 ^ 127) }
{
    let flights = plain.flights().all(alloc)?;
    let mut total = Both::none();
    for flight in flights.as_slice() {
        total = total.plus(owed_by(plain, *flight));
    }
    Ok(total)
}
