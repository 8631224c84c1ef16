//! What fsyncs have to write.
ghost use Rattle.std.specs.Prelude.{◌≡◌, ℕ, ◌+◌, ◌<◌, ◌≤◌, ◌^◌, IfOk};
ghost use Rattle.f2_files.specs.Known.{IsKnownOf};
ghost use Rattle.f2_model.specs.Fallback as machine;
ghost use Rattle.f2_model.specs.State.{State};
ghost use Rattle.f2_flights.specs.Parts.{flight_of};

use f2_files::Files;
use f2_flights::{Flight, Part};
use std::alloc::AllocError;
use std::marker::Model;

/// How many node blocks and how many data blocks, in numbers that no sum of them passes.
#[derive(Clone, Copy, Debug)]
pub(crate) struct Blocks {
    pub(crate) nodes: u128,
    pub(crate) pages: u128,
}

impl Model for Blocks {
    ghost use Rattle.f2_model.specs.Fallback.{Both};

    ghost Value = { Both };

    ghost view = { λ b. record { nodes = b.nodes; pages = b.pages } };

    ghost inverse = { λ b. record { nodes = b.nodes; pages = b.pages } };
}

pub(crate) const NO_BLOCKS: Blocks = Blocks { nodes: 0, pages: 0 };

impl Blocks {
    /// The sum, zone by zone.
    pub(crate) fn plus(self, other: Blocks) -> Blocks
        requires nodes { self.nodes + other.nodes < 2 ^ 128 }
        requires pages { self.pages + other.pages < 2 ^ 128 }
        ensures { result ≡ machine.sum_of self other }
    {
        Blocks {
            nodes: self.nodes + other.nodes,
            pages: self.pages + other.pages,
        }
    }
}

/// What is dirty of a file.
fn dirty(files: &Files, ino: u32) -> Blocks
    ensures nodes { result.nodes ≡ machine.pairs_of ino files.now.dirty_nodes }
    ensures pages { result.pages ≡ machine.pairs_of ino files.now.dirty_pages }
    ensures few_nodes { result.nodes < 2 ^ 64 }
    ensures few_pages { result.pages < 2 ^ 64 }
{
    Blocks {
        nodes: files.dirty_nodes_of(ino) as u128,
        pages: files.dirty_pages_of(ino) as u128,
    }
}

/// What one more fsync of a file has to write: its dirty pages, and its dirty direct nodes and the inode.
pub(crate) fn needed(files: &Files, ino: u32) -> Blocks
    ensures exact { (state : State) → IsKnownOf files.now state → result ≡ machine.needed state ino }
    ensures few_nodes { result.nodes ≤ 2 ^ 64 }
    ensures few_pages { result.pages ≤ 2 ^ 64 }
{
    let dirty = dirty(files, ino);
    Blocks {
        nodes: dirty.nodes + 1,
        pages: dirty.pages,
    }
}

/// What a call in flight has still to write.
fn owed_by(files: &Files, flight: Flight) -> Blocks
    ensures exact { (state : State) → IsKnownOf files.now state → result ≡ machine.owed_by state (flight_of flight) }
    ensures few_nodes { result.nodes ≤ 2 ^ 64 }
    ensures few_pages { result.pages ≤ 2 ^ 64 }
{
    match flight {
        Flight::Fsync { ino, progress } => match progress.part {
            Part::Marked => dirty(files, ino),
            Part::Pages | Part::Nodes => needed(files, ino),
        },
        Flight::Check { .. } => NO_BLOCKS,
    }
}

/// What the calls in flight have still to write.
pub(crate) fn owed(files: &Files) -> Result<Blocks, AllocError>
    ensures exact { IfOk result (λ blocks. (state : State) → IsKnownOf files.now state → blocks ≡ machine.owed state) }
    ensures few_nodes { IfOk result (λ blocks. blocks.nodes < 2 ^ 127) }
    ensures few_pages { IfOk result (λ blocks. blocks.pages < 2 ^ 127) }
{
    let flights = files.calls_in_flight()?;
    let mut total = NO_BLOCKS;
    for flight in flights.as_slice() {
        total = total.plus(owed_by(files, *flight));
    }
    Ok(total)
}
