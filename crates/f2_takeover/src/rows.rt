//! The rows of a tree.
ghost use Rattle.std.specs.Prelude.{◌≡◌, IfOk, OnOk};
ghost use Rattle.std.specs.FinMap as map;
ghost use Rattle.std.specs.Option.{option_copied};

use crate::nodes::TakenNodes;
use f2_model::{Kind, Name};
use f2_recover::PageAt;
use std::alloc::{AllocError, Global};
use std::collections::BTreeMap;
use std::marker::Model;

/// A file or a directory of the tree.
#[derive(Drop)]
pub struct TakenRow {
    pub kind: Kind,
    /// The ino of its directory; the root is its own parent.
    pub parent: u32,
    /// Its name there; the root's is empty.
    pub name: Name,
    /// How many names it stands below the root.
    pub depth: u32,
    /// Its length in bytes; 0 for a directory.
    pub size: u64,
    /// Where its pages stand, rising; a directory's are its dentry blocks.
    pub pages: Vec<PageAt>,
    /// The nodes that its pages need, as far as the image has them.
    pub nodes: TakenNodes,
    /// Whether it was marked, or is a directory that gains the name of a marked file.
    pub changed: bool,
}

/// The rows of a tree, by their inos.
#[derive(Drop)]
pub struct TakenRows {
    rows: BTreeMap<u32, TakenRow>,
}

impl Model for TakenRows {
    ghost use Rattle.std.specs.Ordering.{nat_cmp};
    ghost use Rattle.std.specs.FinMap as map;
    ghost use Rattle.std.specs.Coded.{coded_ℕ};
    ghost use Rattle.f2_takeover.specs.declared.rows.TakenRow.{TakenRow};
    ghost use Rattle.f2_takeover.specs.contracts.rows.TakenRow as row;

    ghost Value = { map.FinMap nat_cmp TakenRow };

    ghost coded = { map.code coded_ℕ row.the_row.coded };

    ghost view = { λ r. map.from_entries r.rows.entries };
}

impl TakenRows {
    /// No row, which takes no memory.
    pub(crate) fn new(alloc: Global) -> TakenRows
        ensures { result ≡ map.empty }
    {
        TakenRows {
            rows: BTreeMap::new(alloc),
        }
    }

    /// The row of an ino, or `None` where there is none.
    pub fn get(&self, ino: u32) -> Option<&TakenRow>
        ensures { option_copied result ≡ map.get self.now ino }
    {
        self.rows.get(&ino)
    }

    /// Takes the row of an ino out, or gives `None` where there is none.
    pub fn take(&mut self, ino: u32) -> Option<TakenRow>
        ensures taken { result ≡ map.get self.old ino }
        ensures left { self.new ≡ map.remove self.old ino }
    {
        self.rows.remove(&ino)
    }

    /// The inos of the rows, rising.
    pub fn inos(&self, alloc: Global) -> Result<Vec<u32>, AllocError>
        ensures { IfOk result (λ inos. inos.items ≡ map.keys self.now) }
    {
        self.rows.keys().copied().collect(alloc)
    }

    /// Puts the row of an ino, in place of one that is there.
    pub(crate) fn put(&mut self, ino: u32, row: TakenRow) -> Result<(), AllocError>
        ensures { OnOk result (self.new ≡ map.insert self.old ino row) }
    {
        self.rows.insert(ino, row)?;
        Ok(())
    }
}
