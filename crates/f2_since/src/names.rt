//! Names that rows of base and marks leave and have again.
ghost use Rattle.std.specs.Prelude.{◌≡◌, OnOk, OnErr};
ghost use Rattle.f2_model.specs.State.{State};
ghost use Rattle.f2_since.specs.Counted.{IsSince, IsRunning};
ghost use Rattle.f2_since.specs.Parting.{Parts, Joins, parted_with, rejoined};

use crate::since::Since;
use f2_model::{Kind, Name};
use std::alloc::AllocError;

impl Since {
    /// A row of the base or of a mark leaves its name of a directory, as by an unlink or a rename. Where memory is refused
    /// nothing changes.
    pub fn unbound(
        &mut self,
        directory: u32,
        name: Name,
        ino: u32,
        kind: Kind,
    ) -> Result<(), AllocError>
        ensures is { OnOk result (self.new ≡ record self.old { parted = parted_with self.old.parted directory name (ino, kind) }) }
        ensures err { OnErr result (self.new ≡ self.old) }
        ensures since { OnOk result ((state after : State) → IsSince self.old state → IsRunning state → Parts state after ino directory name → IsSince self.new after) }
    {
        self.parted.put(self.alloc, directory, name, ino, kind)
    }

    /// An ino has a name of a directory: one that parted from it has come back, as by a rename.
    pub fn bound(&mut self, directory: u32, name: &Name, ino: u32)
        ensures is { self.new ≡ record self.old { parted = rejoined self.old.parted directory name.now ino } }
        ensures since { (state after : State) → IsSince self.old state → IsRunning state → Joins state after ino directory name.now → IsSince self.new after }
    {
        self.parted.rejoin(directory, name, ino);
    }
}
