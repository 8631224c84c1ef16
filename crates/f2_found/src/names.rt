//! The names of the directories of a tree.
ghost use Rattle.std.specs.Prelude.{◌≡◌, OnOk, OnErr};
ghost use Rattle.std.specs.FinMap as map;
ghost use Rattle.std.specs.Option.{option_copied};

use f2_dir::Dir;
use std::alloc::{AllocError, Global};
use std::collections::BTreeMap;
use std::marker::Model;

/// The names of directories, by the directories' inos.
#[derive(Drop)]
pub struct FoundNames {
    names: BTreeMap<u32, Dir>,
}

impl Model for FoundNames {
    ghost use Rattle.std.specs.Ordering.{nat_cmp};
    ghost use Rattle.std.specs.FinMap as map;
    ghost use Rattle.std.specs.Coded.{coded_ℕ};
    ghost use Rattle.f2_dir.specs.Entries.{Entries, entries_code};

    ghost Value = { map.FinMap nat_cmp Entries };

    ghost coded = { map.code coded_ℕ entries_code };

    ghost view = { λ n. map.from_entries n.names.entries };
}

impl FoundNames {
    /// No directory, which takes no memory.
    pub(crate) fn new(alloc: Global) -> FoundNames
        ensures { result ≡ map.empty }
    {
        FoundNames {
            names: BTreeMap::new(alloc),
        }
    }

    /// The names of a directory, or `None` where it isn't there.
    pub fn get(&self, directory: u32) -> Option<&Dir>
        ensures { option_copied result ≡ map.get self.now directory }
    {
        self.names.get(&directory)
    }

    /// Puts the names of a directory. Where memory is refused nothing changes.
    pub(crate) fn put(&mut self, directory: u32, names: Dir) -> Result<(), AllocError>
        ensures ok { OnOk result (self.new ≡ map.insert self.old directory names) }
        ensures err { OnErr result (self.new ≡ self.old) }
    {
        self.names.insert(directory, names)?;
        Ok(())
    }

    /// Takes the names of a directory out, or gives `None` where it isn't there.
    pub(crate) fn take(&mut self, directory: u32) -> Option<Dir>
        ensures taken { result ≡ map.get self.old directory }
        ensures left { self.new ≡ map.remove self.old directory }
    {
        self.names.remove(&directory)
    }
}
