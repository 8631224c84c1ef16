//! Calls in flight.
ghost use Rattle.std.specs.Prelude.{◌≡◌, false, nat_lt, IsSome, OnOk, OnErr, IfOk};
ghost use Rattle.std.specs.List.{filter, filter_map};
ghost use Rattle.std.specs.Option.{option_map};
ghost use Rattle.std.specs.FinMap as map;
ghost use Rattle.f2_model.specs.Fallback.{frozen_ino};
ghost use Rattle.f2_model.specs.Lists.{least_number};
ghost use Rattle.f2_model.specs.State.{State};
ghost use Rattle.f2_model.specs.Step.{first_key, is_check, is_shut, freezes, open_position, draws_next};
ghost use Rattle.f2_flights.specs.Parts.{flight_of};

use crate::files::Files;
use f2_flights::{Flight, Part};
use std::alloc::AllocError;

impl Files {
    /// The call of a seat.
    pub fn flight(&self, seat: u8) -> Option<Flight>
        ensures { option_map flight_of result ≡ map.get self.now.flights seat }
    {
        self.flights.get(seat)
    }

    /// A seat has a call in flight. Where memory is refused nothing changes.
    pub fn begin(&mut self, seat: u8, flight: Flight) -> Result<(), AllocError>
        ensures ok { OnOk result (self.new ≡ record self.old { flights = map.insert self.old.flights seat (flight_of flight) }) }
        ensures err { OnErr result (self.new ≡ self.old) }
    {
        self.flights.insert(seat, flight)
    }

    /// The call of a seat that has one goes on. It takes no memory.
    pub fn progress(&mut self, seat: u8, flight: Flight)
        requires { IsSome (map.get self.old.flights seat) }
        ensures { self.new ≡ record self.old { flights = map.insert self.old.flights seat (flight_of flight) } }
    {
        self.flights.set(seat, flight);
    }

    /// The call of a seat is over.
    pub fn leave(&mut self, seat: u8)
        ensures { self.new ≡ record self.old { flights = map.remove self.old.flights seat } }
    {
        self.flights.remove(seat);
    }

    /// The least seat with a call in flight.
    pub fn least_in_flight(&self) -> Option<u8>
        ensures { result ≡ first_key (map.entries self.now.flights) }
    {
        self.flights.least()
    }

    /// The seat that makes a checkpoint.
    pub fn checking(&self) -> Option<u8>
        ensures { result ≡ first_key (filter (λ one. is_check one.1) (map.entries self.now.flights)) }
    {
        self.flights.checking()
    }

    /// The seat that has a file in fsync.
    pub fn holder(&self, ino: u32) -> Option<u8>
        ensures { result ≡ first_key (filter (λ one. freezes ino one.1) (map.entries self.now.flights)) }
    {
        self.flights.freezing(ino)
    }

    /// The files in fsync, by rising seat.
    pub fn held_inos(&self) -> Result<Vec<u32>, AllocError>
        ensures { IfOk result (λ inos. inos.items ≡ filter_map frozen_ino (map.values self.now.flights)) }
    {
        self.flights.frozen_inos(self.alloc)
    }

    /// The least open position below another one.
    pub fn gap_below(&self, position: u32) -> Option<u32>
        ensures { result ≡ least_number (filter (λ open_one. nat_lt open_one position) (filter_map open_position (map.values self.now.flights))) }
    {
        self.flights.gap_below(position)
    }

    /// Whether the next event of a seat's call draws a position of the node log, of a volume that isn't shut.
    pub fn draws_next(&self, seat: u8) -> bool
        ensures { (state : State) → state.flights ≡ self.now.flights → is_shut state.mode ≡ false → result ≡ draws_next state seat }
    {
        match self.flights.get(seat) {
            Some(Flight::Fsync { progress, .. }) => {
                progress.part == Part::Nodes && progress.slot.is_none()
            }
            _ => false,
        }
    }
}
