//! The names of directories.
ghost use Rattle.std.specs.Prelude.{◌≡◌, ◌&&◌, Some, OnOk, OnErr, IfOk};
ghost use Rattle.std.specs.FinMap as map;
ghost use Rattle.std.specs.List.{list_any};
ghost use Rattle.std.specs.Option.{option_copied};
ghost use Rattle.f2_format.specs.Packing.{blocks_of_names};
ghost use Rattle.f2_model.specs.Tree.{is_directory};
ghost use Rattle.f2_dir.specs.Entries.{Entries};
ghost use Rattle.f2_files.specs.Packed.{and_come, but_gone};
ghost use Rattle.f2_files.specs.Led.{bound_in, led, ino_of, is_occupied, reaches, with_name, without_name};

use crate::bindings::Bindings;
use f2_model::{Kind, Name, Names, ROOT, Reply};
use std::alloc::{AllocError, Global};
use std::collections::BTreeMap;
use std::marker::Model;

/// The names of each directory, by the directories' inos.
#[derive(Drop)]
pub(crate) struct Directories {
    names: BTreeMap<u32, Bindings>,
    alloc: Global,
}

impl Model for Directories {
    ghost use Rattle.std.specs.Ordering.{nat_cmp};
    ghost use Rattle.std.specs.FinMap as map;
    ghost use Rattle.std.specs.Coded.{coded_ℕ};
    ghost use Rattle.f2_dir.specs.Entries.{Entries, entries_code};

    ghost Value = { map.FinMap nat_cmp Entries };

    ghost coded = { map.code coded_ℕ entries_code };

    ghost view = { λ d. map.from_entries d.names.entries };
}

impl Directories {
    /// No directory, which takes no memory.
    pub(crate) fn new(alloc: Global) -> Directories
        ensures { result ≡ map.empty }
    {
        Directories {
            names: BTreeMap::new(alloc),
            alloc,
        }
    }

    /// Whether a directory is there.
    pub(crate) fn contains(&self, directory: u32) -> bool
        ensures { result ≡ map.contains_key self.now directory }
    {
        self.names.get(&directory).is_some()
    }

    /// What a name of a directory is bound to, or `None` where there is no such directory or name.
    pub(crate) fn get(&self, directory: u32, name: &Name) -> Option<(u32, Kind)>
        ensures { result ≡ bound_in self.now directory name.now }
    {
        self.names.get(&directory)?.get(name)
    }

    /// Where a path leads from the root, or the refusal of the first part that has no entry.
    pub(crate) fn led(&self, path: &[Name]) -> Result<(u32, Kind), Reply>
        ensures { result ≡ led self.now path.now }
    {
        let mut place = (ROOT, Kind::Directory);
        for name in path {
            let (directory, kind) = place;
            if kind != Kind::Directory {
                return Err(Reply::NotDir);
            }
            place = self.get(directory, name).ok_or(Reply::NoEnt)?;
        }
        Ok(place)
    }

    /// The ino at the end of a path, or the refusal of the first part that has no entry.
    pub(crate) fn ino_led(&self, path: &[Name]) -> Result<u32, Reply>
        ensures { result ≡ ino_of (led self.now path.now) }
    {
        self.led(path).map(|place| place.0)
    }

    /// Whether a directory has a name.
    pub(crate) fn is_occupied(&self, directory: u32) -> bool
        ensures { result ≡ is_occupied self.now directory }
    {
        match self.names.get(&directory) {
            Some(names) => !names.is_empty(),
            None => false,
        }
    }

    /// Whether a directory stands so many steps below another one; that one itself, where they are none.
    #[cycle(reaching)]
    pub(crate) fn reaches(&self, directory: u32, steps: usize) -> bool
        ensures { result ≡ reaches self.now steps directory }
    {
        if steps == 0 {
            return true;
        }
        match self.names.get(&directory) {
            Some(names) => self.any_reaches(names, steps - 1),
            None => false,
        }
    }

    /// The same of a directory that one of some names is bound to.
    #[cycle(reaching)]
    fn any_reaches(&self, names: &Bindings, steps: usize) -> bool
        ensures { result ≡ list_any (λ place. is_directory place.1 && reaches self.now steps place.0) (map.values names.now) }
    {
        for place in names.places() {
            let (ino, kind) = *place;
            if kind == Kind::Directory && self.reaches(ino, steps) {
                return true;
            }
        }
        false
    }

    /// Adds a directory without names. Where memory is refused nothing changes.
    pub(crate) fn add(&mut self, directory: u32) -> Result<(), AllocError>
        ensures ok { OnOk result (self.new ≡ map.insert self.old directory map.empty) }
        ensures err { OnErr result (self.new ≡ self.old) }
    {
        self.names.insert(directory, Bindings::new(self.alloc))?;
        Ok(())
    }

    /// Takes a directory out, with its names.
    pub(crate) fn remove(&mut self, directory: u32)
        ensures { self.new ≡ map.remove self.old directory }
    {
        self.names.remove(&directory);
    }

    /// Binds a name of a directory, where that is there. Where memory is refused nothing changes.
    pub(crate) fn bind(
        &mut self,
        directory: u32,
        name: Name,
        ino: u32,
        kind: Kind,
    ) -> Result<(), AllocError>
        ensures ok { OnOk result (self.new ≡ with_name self.old directory name (ino, kind)) }
        ensures err { OnErr result (self.new ≡ self.old) }
    {
        match self.names.get_mut(&directory) {
            Some(names) => names.put(name, ino, kind),
            None => Ok(()),
        }
    }

    /// Takes a name of a directory out, where that is there.
    pub(crate) fn unbind(&mut self, directory: u32, name: &Name)
        ensures { self.new ≡ without_name self.old directory name.now }
    {
        if let Some(names) = self.names.get_mut(&directory) {
            let _ = names.take(name);
        }
    }

    /// The dentry blocks that the names of a directory fill after one left and one came; none where it isn't there.
    pub(crate) fn blocks_after(
        &self,
        directory: u32,
        gone: Option<&Name>,
        come: Option<&Name>,
    ) -> u64
        ensures { (names : Entries) → map.get self.now directory ≡ Some names → result ≡ blocks_of_names (and_come (option_copied come.entry) (but_gone (option_copied gone.entry) (map.keys names))) }
    {
        match self.names.get(&directory) {
            Some(names) => names.blocks_after(gone, come),
            None => 0,
        }
    }

    /// A copy of the names of a directory, in byte order; none where it isn't there.
    pub(crate) fn list(&self, directory: u32) -> Result<Names, AllocError>
        ensures { (names : Entries) → map.get self.now directory ≡ Some names → IfOk result (λ list. list ≡ map.keys names) }
    {
        match self.names.get(&directory) {
            Some(names) => names.list(),
            None => Ok(Names::new(self.alloc)),
        }
    }
}
