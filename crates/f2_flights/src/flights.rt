//! Calls in flight.
ghost use Rattle.std.specs.Prelude.{◌≡◌, nat_lt, IsSome, OnOk, OnErr, IfOk, map as map_list};
ghost use Rattle.std.specs.List.{filter, filter_map};
ghost use Rattle.std.specs.Option.{option_map};
ghost use Rattle.std.specs.FinMap as map;
ghost use Rattle.f2_model.specs.Fallback.{frozen_ino};
ghost use Rattle.f2_model.specs.Lists.{least_number};
ghost use Rattle.f2_model.specs.Step.{first_key, is_check, freezes, open_position};
ghost use Rattle.f2_flights.specs.Parts.{flight_of};

use f2_model::Plan;
use std::alloc::{AllocError, Global};
use std::collections::BTreeMap;
use std::marker::Model;

/// What an fsync has still to write: pages, then nodes, then nothing but its last flush.
#[derive(Clone, Copy, Debug, PartialEq, Eq)]
pub enum Part {
    Pages,
    Nodes,
    Marked,
}

/// What is to be written at a position of the node log that was drawn.
#[derive(Clone, Copy, Debug, PartialEq, Eq)]
pub enum Drawn {
    /// The direct node of the file with this offset.
    Node(u32),
    /// The marked inode of the file.
    Mark,
}

/// A position of the node log that was drawn and isn't written yet.
#[derive(Clone, Copy, Debug, PartialEq, Eq)]
pub struct Slot {
    pub position: u32,
    pub drawn: Drawn,
}

/// What an fsync has done so far.
#[derive(Clone, Copy, Debug, PartialEq, Eq)]
pub struct Progress {
    pub part: Part,
    /// The place of its mark among the marks, once it is drawn.
    pub place: usize,
    /// The position of its mark in the node log, once it is drawn.
    pub position: u32,
    /// Its open position: one that was drawn and whose block isn't written.
    pub slot: Option<Slot>,
}

/// A call in flight.
#[derive(Clone, Copy, Debug, PartialEq, Eq)]
pub enum Flight {
    /// An fsync of a file.
    Fsync { ino: u32, progress: Progress },
    /// A checkpoint.
    Check { plan: Plan },
}

impl Flight {
    /// Whether it is a checkpoint.
    pub fn is_check(&self) -> bool
        ensures { result ≡ is_check (flight_of self.now) }
    {
        matches!(self, Flight::Check { .. })
    }

    /// Whether it is an fsync of this file.
    pub fn freezes(&self, file: u32) -> bool
        ensures { result ≡ freezes file (flight_of self.now) }
    {
        matches!(self, Flight::Fsync { ino, .. } if *ino == file)
    }

    /// The file that it keeps from changing.
    pub fn frozen_ino(&self) -> Option<u32>
        ensures { result ≡ frozen_ino (flight_of self.now) }
    {
        match self {
            Flight::Fsync { ino, .. } => Some(*ino),
            Flight::Check { .. } => None,
        }
    }

    /// The position that it has open.
    pub fn open_position(&self) -> Option<u32>
        ensures { result ≡ open_position (flight_of self.now) }
    {
        match self {
            Flight::Fsync { progress, .. } => progress.slot.map(|slot| slot.position),
            Flight::Check { .. } => None,
        }
    }
}

/// The calls in flight, by their seats.
#[derive(Debug, Drop)]
pub struct Flights {
    flights: BTreeMap<u8, Flight>,
}

impl Model for Flights {
    ghost use Rattle.std.specs.Prelude.{map as map_list};
    ghost use Rattle.std.specs.Ordering.{nat_cmp};
    ghost use Rattle.std.specs.FinMap as map;
    ghost use Rattle.std.specs.Coded.{codes, coded_ℕ};
    ghost use Rattle.f2_model.specs.State as machine;
    ghost use Rattle.f2_flights.specs.Parts.{flight_of};

    ghost Value = { map.FinMap nat_cmp machine.Flight };

    ghost coded = { map.code coded_ℕ (Prim.hlevel codes) };

    ghost view = { λ f. map.from_entries (map_list (λ e. (e.0, flight_of e.1)) f.flights.entries) };
}

impl Flights {
    /// No call in flight, which takes no memory.
    pub fn new(alloc: Global) -> Flights
        ensures { result ≡ map.empty }
    {
        Flights {
            flights: BTreeMap::new(alloc),
        }
    }

    /// The call of a seat.
    pub fn get(&self, seat: u8) -> Option<Flight>
        ensures { option_map flight_of result ≡ map.get self.now seat }
    {
        self.flights.get(&seat).copied()
    }

    /// Puts the call of a seat. Where memory is refused the calls stay as they were.
    pub fn insert(&mut self, seat: u8, flight: Flight) -> Result<(), AllocError>
        ensures ok { OnOk result (self.new ≡ map.insert self.old seat (flight_of flight)) }
        ensures err { OnErr result (self.new ≡ self.old) }
    {
        self.flights.insert(seat, flight)?;
        Ok(())
    }

    /// Puts the call of a seat that has one, in its place. It takes no memory.
    pub fn set(&mut self, seat: u8, flight: Flight)
        requires { IsSome (map.get self.old seat) }
        ensures { self.new ≡ map.insert self.old seat (flight_of flight) }
    {
        match self.flights.insert(seat, flight) {
            Ok(_) => {}
            Err(_) => unreachable!(),
        }
    }

    /// Takes the call of a seat out.
    pub fn remove(&mut self, seat: u8)
        ensures { self.new ≡ map.remove self.old seat }
    {
        self.flights.remove(&seat);
    }

    /// Takes all calls out.
    pub fn clear(&mut self)
        ensures { self.new ≡ map.empty }
    {
        self.flights.clear();
    }

    /// The least seat with a call in flight.
    pub fn least(&self) -> Option<u8>
        ensures { result ≡ first_key (map.entries self.now) }
    {
        self.flights.keys().next().copied()
    }

    /// The seat that makes a checkpoint.
    pub fn checking(&self) -> Option<u8>
        ensures { result ≡ first_key (filter (λ one. is_check one.1) (map.entries self.now)) }
    {
        let found = self.flights.iter().find(|(_, flight)| flight.is_check())?;
        Some(*found.0)
    }

    /// The seat that has a file in fsync.
    pub fn freezing(&self, ino: u32) -> Option<u8>
        ensures { result ≡ first_key (filter (λ one. freezes ino one.1) (map.entries self.now)) }
    {
        let found = self.flights.iter().find(|(_, flight)| flight.freezes(ino))?;
        Some(*found.0)
    }

    /// The files in fsync, by rising seat.
    pub fn frozen_inos(&self, alloc: Global) -> Result<Vec<u32>, AllocError>
        ensures { IfOk result (λ inos. inos.items ≡ filter_map frozen_ino (map.values self.now)) }
    {
        self.flights
            .values()
            .filter_map(|flight| flight.frozen_ino())
            .collect(alloc)
    }

    /// The least open position below another one.
    pub fn gap_below(&self, position: u32) -> Option<u32>
        ensures { result ≡ least_number (filter (λ open_one. nat_lt open_one position) (filter_map open_position (map.values self.now))) }
    {
        self.flights
            .values()
            .filter_map(|flight| flight.open_position())
            .filter(|open_one| *open_one < position)
            .min()
    }

    /// The calls, by rising seat.
    pub fn all(&self, alloc: Global) -> Result<Vec<Flight>, AllocError>
        ensures { IfOk result (λ all. map_list flight_of all.items ≡ map.values self.now) }
    {
        self.flights.values().copied().collect(alloc)
    }
}
