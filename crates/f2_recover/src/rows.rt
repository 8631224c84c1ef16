//! The rows of the base, and the names of its directories.
ghost use Rattle.std.specs.Prelude.{◌≡◌, OnOk, OnErr};
ghost use Rattle.std.specs.FinMap as map;
ghost use Rattle.std.specs.Option.{option_copied};

use crate::files::File;
use f2_dir::Dir;
use f2_model::Name;
use std::alloc::{AllocError, Global};
use std::collections::BTreeMap;
use std::marker::Model;

/// A file or a directory of the base.
#[derive(Drop)]
pub struct BaseRow {
    /// The ino of its directory; the root is its own parent.
    pub parent: u32,
    /// Its name there; the root's is empty.
    pub name: Name,
    /// How many names it stands below the root.
    pub depth: u32,
    pub file: File,
}

/// The rows of the base, by their inos.
#[derive(Drop)]
pub struct BaseRows {
    rows: BTreeMap<u32, BaseRow>,
}

impl Model for BaseRows {
    ghost use Rattle.std.specs.Ordering.{nat_cmp};
    ghost use Rattle.std.specs.FinMap as map;
    ghost use Rattle.std.specs.Coded.{coded_ℕ};
    ghost use Rattle.f2_recover.specs.declared.rows.BaseRow.{BaseRow};
    ghost use Rattle.f2_recover.specs.contracts.rows.BaseRow as row;

    ghost Value = { map.FinMap nat_cmp BaseRow };

    ghost coded = { map.code coded_ℕ row.the_row.coded };

    ghost view = { λ r. map.from_entries r.rows.entries };
}

impl BaseRows {
    /// No row, which takes no memory.
    pub(crate) fn new(alloc: Global) -> BaseRows
        ensures { result ≡ map.empty }
    {
        BaseRows {
            rows: BTreeMap::new(alloc),
        }
    }

    /// The row of an ino, or `None` where there is none.
    pub fn get(&self, ino: u32) -> Option<&BaseRow>
        ensures { option_copied result ≡ map.get self.now ino }
    {
        self.rows.get(&ino)
    }

    /// Whether an ino has a row.
    pub fn contains(&self, ino: u32) -> bool
        ensures { result ≡ map.contains_key self.now ino }
    {
        self.get(ino).is_some()
    }

    /// Puts the row of an ino. Where memory is refused nothing changes.
    pub(crate) fn put(&mut self, ino: u32, row: BaseRow) -> Result<(), AllocError>
        ensures ok { OnOk result (self.new ≡ map.insert self.old ino row) }
        ensures err { OnErr result (self.new ≡ self.old) }
    {
        self.rows.insert(ino, row)?;
        Ok(())
    }
}

/// The names of the directories of the base, by the directories' inos.
#[derive(Drop)]
pub struct BaseNames {
    names: BTreeMap<u32, Dir>,
}

impl Model for BaseNames {
    ghost use Rattle.std.specs.Ordering.{nat_cmp};
    ghost use Rattle.std.specs.FinMap as map;
    ghost use Rattle.std.specs.Coded.{coded_ℕ};
    ghost use Rattle.f2_dir.specs.Entries.{Entries, entries_code};

    ghost Value = { map.FinMap nat_cmp Entries };

    ghost coded = { map.code coded_ℕ entries_code };

    ghost view = { λ n. map.from_entries n.names.entries };
}

impl BaseNames {
    /// No directory, which takes no memory.
    pub(crate) fn new(alloc: Global) -> BaseNames
        ensures { result ≡ map.empty }
    {
        BaseNames {
            names: BTreeMap::new(alloc),
        }
    }

    /// The names of a directory, or `None` where it is none of the base.
    pub fn get(&self, directory: u32) -> Option<&Dir>
        ensures { option_copied result ≡ map.get self.now directory }
    {
        self.names.get(&directory)
    }

    /// Puts the names of a directory. Where memory is refused nothing changes.
    pub(crate) fn put(&mut self, directory: u32, names: Dir) -> Result<(), AllocError>
        ensures ok { OnOk result (self.new ≡ map.insert self.old directory names) }
        ensures err { OnErr result (self.new ≡ self.old) }
    {
        self.names.insert(directory, names)?;
        Ok(())
    }
}
