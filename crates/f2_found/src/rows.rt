//! The rows of a tree.
ghost use Rattle.std.specs.Prelude.{◌≡◌, IfOk, OnOk, OnErr};
ghost use Rattle.std.specs.FinMap as map;
ghost use Rattle.std.specs.Option.{option_copied};

use crate::pages::FoundPages;
use f2_model::Kind;
use std::alloc::{AllocError, Global};
use std::collections::BTreeMap;
use std::marker::Model;

/// A file or a directory of the tree; its name stands among those of its directory.
#[derive(Drop)]
pub struct FoundRow {
    pub kind: Kind,
    /// Its length in bytes; 0 for a directory.
    pub size: u64,
    /// Where the pages of a file stand; a directory has none.
    pub pages: FoundPages,
}

/// The rows of a tree, by their inos.
#[derive(Drop)]
pub struct FoundRows {
    rows: BTreeMap<u32, FoundRow>,
    alloc: Global,
}

impl Model for FoundRows {
    ghost use Rattle.std.specs.Ordering.{nat_cmp};
    ghost use Rattle.std.specs.FinMap as map;
    ghost use Rattle.std.specs.Coded.{coded_ℕ};
    ghost use Rattle.f2_found.specs.declared.rows.FoundRow.{FoundRow};
    ghost use Rattle.f2_found.specs.contracts.rows.FoundRow as row;

    ghost Value = { map.FinMap nat_cmp FoundRow };

    ghost coded = { map.code coded_ℕ row.the_row.coded };

    ghost view = { λ r. map.from_entries r.rows.entries };
}

impl FoundRows {
    /// No row, which takes no memory.
    pub(crate) fn new(alloc: Global) -> FoundRows
        ensures { result ≡ map.empty }
    {
        FoundRows {
            rows: BTreeMap::new(alloc),
            alloc,
        }
    }

    /// The row of an ino, or `None` where there is none.
    pub fn get(&self, ino: u32) -> Option<&FoundRow>
        ensures { option_copied result ≡ map.get self.now ino }
    {
        self.rows.get(&ino)
    }

    /// The inos of the rows, rising.
    pub fn inos(&self) -> Result<Vec<u32>, AllocError>
        ensures { IfOk result (λ inos. inos.items ≡ map.keys self.now) }
    {
        self.rows.keys().copied().collect(self.alloc)
    }

    /// Puts the row of an ino. Where memory is refused nothing changes.
    pub(crate) fn put(&mut self, ino: u32, row: FoundRow) -> Result<(), AllocError>
        ensures ok { OnOk result (self.new ≡ map.insert self.old ino row) }
        ensures err { OnErr result (self.new ≡ self.old) }
    {
        self.rows.insert(ino, row)?;
        Ok(())
    }
}
