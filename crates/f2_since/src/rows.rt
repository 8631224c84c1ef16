//! Rows that are held: those of a base as it is read, and what of them changes before the next one.
ghost use Rattle.std.specs.Prelude.{◌≡◌, ◌<◌, ◌≤◌, ◌^◌, length, true, None, OnOk, OnErr};
ghost use Rattle.std.specs.FinMap as map;
ghost use Rattle.f2_held.specs.Taken.{raised, opened, bound, with_size, forgotten, left, closed};

use crate::since::Since;
use f2_held::Both;
use f2_model::Name;
use std::alloc::AllocError;

impl Since {
    /// A file comes in, or its numbers become the greater ones, each by itself. Where memory is refused nothing changes.
    pub fn hold_file(&mut self, ino: u32, size: Both) -> Result<(), AllocError>
        requires nodes { size.nodes < 2 ^ 31 }
        requires pages { size.pages < 2 ^ 31 }
        ensures ok { OnOk result (self.new ≡ record self.old { held = record self.old.held { files = raised self.old.held.files ino size } }) }
        ensures err { OnErr result (self.new ≡ self.old) }
    {
        self.held.add(ino, size)
    }

    /// A directory comes in. Where memory is refused nothing changes.
    pub fn hold_dir(&mut self, ino: u32) -> Result<(), AllocError>
        ensures ok { OnOk result (self.new ≡ record self.old { held = record self.old.held { directories = opened self.old.held.directories ino } }) }
        ensures err { OnErr result (self.new ≡ self.old) }
    {
        self.held.dir(ino)
    }

    /// A name comes into a directory that is held. Where memory is refused nothing changes.
    pub fn hold_name(&mut self, parent: u32, name: &Name) -> Result<(), AllocError>
        requires parent { map.contains_key self.old.held.directories parent ≡ true }
        requires name { length name.now ≤ 255 }
        ensures ok { OnOk result (self.new ≡ record self.old { held = record self.old.held { directories = bound self.old.held.directories parent name.now } }) }
        ensures err { OnErr result (self.new ≡ self.old) }
    {
        self.held.bind(parent, name)
    }

    /// A file's numbers are exactly these. Where memory is refused, which it is only of a file that isn't held, nothing
    /// changes.
    pub fn set_file(&mut self, ino: u32, size: Both) -> Result<(), AllocError>
        requires nodes { size.nodes < 2 ^ 31 }
        requires pages { size.pages < 2 ^ 31 }
        ensures ok { OnOk result (self.new ≡ record self.old { held = record self.old.held { files = with_size self.old.held.files ino size } }) }
        ensures err { OnErr result (self.new ≡ self.old) }
        ensures absent { OnErr result (map.get self.old.held.files ino ≡ None) }
    {
        self.held.set(ino, size)
    }

    /// A file isn't held any more.
    pub fn drop_file(&mut self, ino: u32)
        ensures { self.new ≡ record self.old { held = record self.old.held { files = forgotten self.old.held.files ino } } }
    {
        self.held.forget(ino);
    }

    /// A name of a directory that is held isn't held any more.
    pub fn drop_name(&mut self, parent: u32, name: &Name)
        requires { map.contains_key self.old.held.directories parent ≡ true }
        ensures { self.new ≡ record self.old { held = record self.old.held { directories = left self.old.held.directories parent name.now } } }
    {
        self.held.leave(parent, name);
    }

    /// A directory isn't held any more.
    pub fn drop_dir(&mut self, ino: u32)
        ensures { self.new ≡ record self.old { held = record self.old.held { directories = closed self.old.held.directories ino } } }
    {
        self.held.drop_dir(ino);
    }
}
