//! The count of what a recovery may put together.
ghost use Rattle.std.specs.Prelude.{◌≡◌, ◌<◌, ◌≤◌, ◌^◌, OnOk, OnErr, IfOk, IfSome, true, length, None};
ghost use Rattle.std.specs.FinMap as map;
ghost use Rattle.std.specs.Option.{option_map};
ghost use Rattle.f2_held.specs.Taken.{none_taken, raised, with_size, forgotten, opened, bound, left, closed, with_name, of_directories, total_of};
ghost use Rattle.f2_held.specs.Sums.{IsSmallSum};

use crate::both::Both;
use crate::directories::Directories;
use crate::sizes::Sizes;
use f2_model::Name;
use std::alloc::{AllocError, Global};
use std::marker::Model;

/// What the rows take that a recovery may put together.
///
/// Of the rows of a regular file it keeps the greatest number of nodes and the greatest number of data
/// blocks, each by itself; of each directory of the last checkpoint all names that rows have in it.
#[derive(Debug, Drop)]
pub struct Held {
    files: Sizes,
    directories: Directories,
}

impl Model for Held {
    ghost use Rattle.f2_held.specs.Taken.{Taken};
    ghost use Rattle.f2_held.specs.Sums.{taken_code};

    ghost Value = { Taken };

    ghost coded = { taken_code };

    ghost view = { λ h. record { files = h.files; directories = h.directories } };
}

impl Held {
    /// No file and no directory, which takes no memory.
    pub fn new(alloc: Global) -> Held
        ensures { result ≡ none_taken }
    {
        Held {
            files: Sizes::new(alloc),
            directories: Directories::new(alloc),
        }
    }

    /// Takes in what a row of a file takes: the file's numbers become the greater ones of what stood and
    /// of these, each by itself. Where memory is refused nothing changes.
    pub fn add(&mut self, ino: u32, size: Both) -> Result<(), AllocError>
        requires nodes { size.nodes < 2 ^ 31 }
        requires pages { size.pages < 2 ^ 31 }
        ensures ok { OnOk result (self.new ≡ record self.old { files = raised self.old.files ino size }) }
        ensures err { OnErr result (self.new ≡ self.old) }
    {
        self.files.raise(ino, size)
    }

    /// Takes in a directory of the last checkpoint, with no name where it isn't in yet. Where memory is
    /// refused nothing changes.
    pub fn dir(&mut self, ino: u32) -> Result<(), AllocError>
        ensures ok { OnOk result (self.new ≡ record self.old { directories = opened self.old.directories ino }) }
        ensures err { OnErr result (self.new ≡ self.old) }
    {
        self.directories.open(ino)
    }

    /// Takes in a name in a directory that is in. Where memory is refused nothing changes.
    ///
    /// A directory of more than 2^29 blocks counts as want of memory.
    pub fn bind(&mut self, parent: u32, name: &Name) -> Result<(), AllocError>
        requires parent { map.contains_key self.old.directories parent ≡ true }
        requires name { length name.now ≤ 255 }
        ensures ok { OnOk result (self.new ≡ record self.old { directories = bound self.old.directories parent name.now }) }
        ensures err { OnErr result (self.new ≡ self.old) }
    {
        self.directories.bind(parent, name)
    }

    /// Makes the numbers of a file exactly these, also where they were greater. Where memory is refused, which
    /// is only where the file isn't in, nothing changes.
    pub fn set(&mut self, ino: u32, size: Both) -> Result<(), AllocError>
        requires nodes { size.nodes < 2 ^ 31 }
        requires pages { size.pages < 2 ^ 31 }
        ensures ok { OnOk result (self.new ≡ record self.old { files = with_size self.old.files ino size }) }
        ensures err { OnErr result (self.new ≡ self.old) }
        ensures absent { OnErr result (map.get self.old.files ino ≡ None) }
    {
        self.files.set(ino, size)
    }

    /// Takes a file out; where it isn't in nothing changes. Asks for no memory.
    pub fn forget(&mut self, ino: u32)
        ensures { self.new ≡ record self.old { files = forgotten self.old.files ino } }
    {
        self.files.forget(ino);
    }

    /// Takes a name out of a directory that is in; where it hasn't the name nothing changes. It walks over
    /// the names of that one directory, and asks for no memory.
    pub fn leave(&mut self, parent: u32, name: &Name)
        requires { map.contains_key self.old.directories parent ≡ true }
        ensures { self.new ≡ record self.old { directories = left self.old.directories parent name.now } }
    {
        self.directories.leave(parent, name);
    }

    /// Takes a directory out with all its names; where it isn't in nothing changes. Asks for no memory.
    pub fn drop_dir(&mut self, ino: u32)
        ensures { self.new ≡ record self.old { directories = closed self.old.directories ino } }
    {
        self.directories.close(ino);
    }

    /// Whether a directory is in.
    pub fn has_dir(&self, ino: u32) -> bool
        ensures { result ≡ map.contains_key self.now.directories ino }
    {
        self.directories.has(ino)
    }

    /// The most nodes and the most data blocks of a tree of what was taken in, as if this file and this
    /// name were in too.
    ///
    /// It walks over the names of that one directory alone. A directory of more than 2^29 blocks counts
    /// as want of memory.
    pub fn with(&self, ino: u32, size: Both, name: Option<(u32, &Name)>) -> Result<Both, AllocError>
        requires nodes { size.nodes < 2 ^ 31 }
        requires pages { size.pages < 2 ^ 31 }
        requires parent { IfSome name (λ at. map.contains_key self.now.directories at.0 ≡ true) }
        requires name { IfSome name (λ at. length at.1.now ≤ 255) }
        ensures { IfOk result (λ total. total ≡ total_of (record { files = raised self.now.files ino size; directories = with_name self.now.directories (option_map (λ (parent, name). (parent, name.now)) name.entry) })) }
    {
        let files = self.files.sum_with(ino, size);
        let directories = sum_with_name(&self.directories, name)?;
        Ok(Both {
            nodes: files.nodes + directories.nodes,
            pages: files.pages + directories.pages,
        })
    }
}

/// What directories take, as if a name were in too.
fn sum_with_name(directories: &Directories, name: Option<(u32, &Name)>) -> Result<Both, AllocError>
    requires parent { IfSome name (λ at. map.contains_key directories.now at.0 ≡ true) }
    requires name { IfSome name (λ at. length at.1.now ≤ 255) }
    ensures sum { IfOk result (λ sum. sum ≡ of_directories (with_name directories.now (option_map (λ (parent, name). (parent, name.now)) name.entry))) }
    ensures small { IfOk result IsSmallSum }
{
    match name {
        Some((parent, name)) => directories.sum_with(parent, name),
        None => Ok(directories.sum()),
    }
}
