//! Names that no row has any more.
ghost use Rattle.std.specs.Prelude.{◌≡◌, false, true, OnOk, OnErr};
ghost use Rattle.std.specs.FinMap as map;
ghost use Rattle.f2_since.specs.Counted.{holder};
ghost use Rattle.f2_since.specs.Parting.{parted_with, parted_without, rejoined};

use f2_dir::Dir;
use f2_model::{Kind, Name};
use std::alloc::{AllocError, Global};
use std::collections::BTreeMap;
use std::marker::Model;

/// Names by their directories' inos, each with what had it.
#[derive(Drop)]
pub(crate) struct Parted {
    directories: BTreeMap<u32, Dir>,
}

impl Model for Parted {
    ghost use Rattle.std.specs.Ordering.{nat_cmp};
    ghost use Rattle.std.specs.FinMap as map;
    ghost use Rattle.std.specs.Coded.{coded_ℕ};
    ghost use Rattle.f2_dir.specs.Entries.{Entries, entries_code};

    ghost Value = { map.FinMap nat_cmp Entries };

    ghost coded = { map.code coded_ℕ entries_code };

    ghost view = { λ p. map.from_entries p.directories.entries };
}

impl Parted {
    /// No name, which takes no memory.
    pub(crate) fn new(alloc: Global) -> Parted
        ensures { result ≡ map.empty }
    {
        Parted {
            directories: BTreeMap::new(alloc),
        }
    }

    /// Takes all names out.
    pub(crate) fn clear(&mut self)
        ensures { self.new ≡ map.empty }
    {
        self.directories.clear();
    }

    /// A name of a directory is what a row had. Where memory is refused nothing changes.
    pub(crate) fn put(
        &mut self,
        alloc: Global,
        directory: u32,
        name: Name,
        ino: u32,
        kind: Kind,
    ) -> Result<(), AllocError>
        ensures ok { OnOk result (self.new ≡ parted_with self.old directory name (ino, kind)) }
        ensures err { OnErr result (self.new ≡ self.old) }
    {
        if self.directories.contains_key(&directory) {
            self.put_beside(directory, name, ino, kind)
        } else {
            self.put_first(alloc, directory, name, ino, kind)
        }
    }

    /// The same, where names of that directory are there.
    fn put_beside(
        &mut self,
        directory: u32,
        name: Name,
        ino: u32,
        kind: Kind,
    ) -> Result<(), AllocError>
        requires { map.contains_key self.old directory ≡ true }
        ensures ok { OnOk result (self.new ≡ parted_with self.old directory name (ino, kind)) }
        ensures err { OnErr result (self.new ≡ self.old) }
    {
        match self.directories.get_mut(&directory) {
            Some(names) => names.put(name, ino, kind),
            None => Err(AllocError),
        }
    }

    /// The same, where none are.
    fn put_first(
        &mut self,
        alloc: Global,
        directory: u32,
        name: Name,
        ino: u32,
        kind: Kind,
    ) -> Result<(), AllocError>
        requires { map.contains_key self.old directory ≡ false }
        ensures ok { OnOk result (self.new ≡ parted_with self.old directory name (ino, kind)) }
        ensures err { OnErr result (self.new ≡ self.old) }
    {
        let mut names = Dir::new(alloc);
        names.put(name, ino, kind)?;
        self.directories.insert(directory, names)?;
        Ok(())
    }

    /// A name of a directory is no row's any more.
    pub(crate) fn take(&mut self, directory: u32, name: &Name)
        ensures { self.new ≡ parted_without self.old directory name.now }
    {
        if let Some(names) = self.directories.get_mut(&directory) {
            let _ = names.take(name);
        }
    }

    /// An ino has a name of a directory, which is no other row's.
    pub(crate) fn rejoin(&mut self, directory: u32, name: &Name, ino: u32)
        ensures { self.new ≡ rejoined self.old directory name.now ino }
    {
        if self.holder(directory, name) == Some(ino) {
            self.take(directory, name);
        }
    }

    /// The ino of the row that had a name, or `None` where no name has parted from a row.
    pub(crate) fn holder(&self, directory: u32, name: &Name) -> Option<u32>
        ensures { result ≡ holder self.now directory name.now }
    {
        let names = self.directories.get(&directory)?;
        let place = names.get(name)?;
        Some(place.0)
    }
}
