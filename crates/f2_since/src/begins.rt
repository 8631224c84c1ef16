//! The begin of an fsync.
ghost use Rattle.std.specs.Prelude.{◌≡◌, ℕ, ◌<◌, ◌≤◌, ◌^◌, length, false, true, Some, None, OnOk, OnErr};
ghost use Rattle.std.specs.FinMap as map;
ghost use Rattle.f2_files.specs.Known.{Known, IsKnownOf};
ghost use Rattle.f2_held.specs.Taken.{names_of, raised, bound};
ghost use Rattle.f2_model.specs.State.{State, Progress};
ghost use Rattle.f2_model.specs.Step.{with_progress};
ghost use Rattle.f2_model.specs.declared.rows.Kind.TheVariants.{Regular};
ghost use Rattle.f2_since.specs.Counted.{IsSince, IsRunning, with_shape};

use crate::room::{MOST_NAME, size_of_file};
use crate::since::Since;
use f2_files::Shape;
use f2_held::{Both, Held};
use std::alloc::AllocError;

/// A file comes in with a name that its directory hasn't. Where memory is refused nothing changes.
fn add_named(held: &mut Held, shape: &Shape, size: Both) -> Result<(), AllocError>
    requires nodes { size.nodes < 2 ^ 31 }
    requires pages { size.pages < 2 ^ 31 }
    requires open { map.contains_key held.old.directories shape.now.parent ≡ true }
    requires name { length shape.now.name ≤ 255 }
    requires absent { map.contains_key (names_of held.old.directories shape.now.parent) shape.now.name ≡ false }
    ensures ok { OnOk result (held.new ≡ record { files = raised held.old.files shape.now.ino size; directories = bound held.old.directories shape.now.parent shape.now.name }) }
    ensures err { OnErr result (held.new ≡ held.old) }
{
    held.bind(shape.parent, &shape.name)?;
    match held.add(shape.ino, size) {
        Ok(()) => Ok(()),
        Err(error) => {
            held.leave(shape.parent, &shape.name);
            Err(error)
        }
    }
}

/// A file comes in with its name, of which is told whether its directory has it already. Where memory is refused
/// nothing changes.
fn add(held: &mut Held, shape: &Shape, size: Both, is_bound: bool) -> Result<(), AllocError>
    requires nodes { size.nodes < 2 ^ 31 }
    requires pages { size.pages < 2 ^ 31 }
    requires open { map.contains_key held.old.directories shape.now.parent ≡ true }
    requires name { length shape.now.name ≤ 255 }
    requires bound { is_bound ≡ map.contains_key (names_of held.old.directories shape.now.parent) shape.now.name }
    ensures ok { OnOk result (held.new ≡ record { files = raised held.old.files shape.now.ino size; directories = bound held.old.directories shape.now.parent shape.now.name }) }
    ensures err { OnErr result (held.new ≡ held.old) }
{
    if is_bound {
        held.add(shape.ino, size)
    } else {
        add_named(held, shape, size)
    }
}

impl Since {
    /// An fsync of a file begins that rolls forward: a recovery may find what the file takes, and its name, from now on.
    /// It is told whether a row of the base or of a mark, which is then the file's own, has that name already. Where
    /// memory is refused nothing changes.
    pub fn begin(&mut self, shape: &Shape, is_bound: bool) -> Result<(), AllocError>
        requires open { map.contains_key self.old.held.directories shape.now.parent ≡ true }
        requires bound { is_bound ≡ map.contains_key (names_of self.old.held.directories shape.now.parent) shape.now.name }
        ensures is { OnOk result (self.new ≡ record self.old { held = with_shape self.old.held shape.now }) }
        ensures err { OnErr result (self.new ≡ self.old) }
        ensures since { OnOk result ((files : Known) (state : State) (seat : ℕ) (progress : Progress) → IsKnownOf files state → IsSince self.old state → IsRunning state
            → map.get files.shapes shape.now.ino ≡ Some shape.now → shape.now.kind ≡ Regular → map.get state.flights seat ≡ None
            → IsSince self.new (with_progress state seat shape.now.ino progress)) }
    {
        let size = size_of_file(self.alloc, &shape.pages)?;
        if shape.name.len() > MOST_NAME {
            return Err(AllocError);
        }
        add(&mut self.held, shape, size, is_bound)
    }
}
