//! What an fsync is measured by, beside what is dirty.
ghost use Rattle.std.specs.Prelude.{◌≡◌, IfOk, map as map_list};
ghost use Rattle.std.specs.FinMap as map;
ghost use Rattle.std.specs.FinSet as set;
ghost use Rattle.f2_flights.specs.Parts.{flight_of};

use crate::files::Files;
use f2_flights::Flight;
use std::alloc::AllocError;

impl Files {
    /// Whether a rename moved a file since the base.
    pub fn has_moved(&self, ino: u32) -> bool
        ensures { result ≡ set.contains self.now.moved ino }
    {
        self.moved.contains(ino)
    }

    /// Whether a truncate emptied a direct node of a file since the base.
    pub fn has_shrunk(&self, ino: u32) -> bool
        ensures { result ≡ set.contains self.now.shrunk ino }
    {
        self.shrunk.contains(ino)
    }

    /// The calls in flight, by rising seat.
    pub fn calls_in_flight(&self) -> Result<Vec<Flight>, AllocError>
        ensures { IfOk result (λ calls. map_list flight_of calls.items ≡ map.values self.now.flights) }
    {
        self.flights.all(self.alloc)
    }
}
