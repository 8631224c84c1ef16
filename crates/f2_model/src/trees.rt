//! The file tree.
ghost use Rattle.std.specs.Prelude.{◌≡◌, ◌^◌, ◌<◌, Some, None, length, OnOk, OnErr, IfOk, IfErr};
ghost use Rattle.std.specs.FinMap as map;
ghost use Rattle.std.specs.Map.Iter.{ShowsInOrder, deref};
ghost use Rattle.std.specs.Option.{option_copied};
ghost use Rattle.f2_model.specs.Tree.{root_alone};
ghost use Rattle.f2_model.specs.declared.rows.Row.{Row};

use crate::lists::Name;
use crate::page_maps::Pages;
use crate::rows::{Kind, Row};
use std::alloc::{AllocError, Global};
use std::collections::BTreeMap;
use std::collections::btree_map::Values;
use std::marker::Model;
use std::mem;

/// The number of the root (F2FS_ROOT_INO).
pub const ROOT: u32 = 3;

/// The rows of a volume, by their inos.
#[derive(Debug, Drop)]
pub struct Tree {
    rows: BTreeMap<u32, Row>,
    alloc: Global,
}

impl Model for Tree {
    ghost use Rattle.std.specs.Prelude.{List, ℕ};
    ghost use Rattle.std.specs.Ordering.{nat_cmp};
    ghost use Rattle.std.specs.FinMap as map;
    ghost use Rattle.std.specs.Coded.{coded_ℕ};
    ghost use Rattle.f2_model.specs.declared.rows.Row.{Row};
    ghost use Rattle.f2_model.specs.contracts.rows.Row as row;

    ghost Value = { map.FinMap nat_cmp Row };

    ghost coded = { map.code coded_ℕ row.the_row.coded };

    ghost view = { λ t. map.from_entries t.rows.entries };
}

impl Tree {
    /// The tree without a row, which takes no memory.
    pub fn new(alloc: Global) -> Tree
        ensures { result ≡ map.empty }
    {
        Tree {
            rows: BTreeMap::new(alloc),
            alloc,
        }
    }

    /// The tree of the root alone.
    pub fn root_alone(alloc: Global) -> Result<Tree, AllocError>
        ensures { IfOk result (λ tree. tree ≡ root_alone) }
    {
        let mut tree = Tree::new(alloc);
        tree.put(Row {
            ino: ROOT,
            kind: Kind::Directory,
            parent: ROOT,
            name: Name::new(alloc),
            size: 0,
            pages: Pages::new(alloc),
        })?;
        Ok(tree)
    }

    /// The number of rows.
    pub fn len(&self) -> usize
        ensures len { result ≡ map.len self.now }
        ensures fits { result < 2 ^ 63 }
    {
        self.rows.len()
    }

    /// The row of an ino, or `None` where there is none.
    pub fn get(&self, ino: u32) -> Option<&Row>
        ensures { option_copied result ≡ map.get self.now ino }
    {
        self.rows.get(&ino)
    }

    /// Puts a row at its ino, in the place of one that stood there. Where memory is refused the tree
    /// stays as it was.
    pub fn put(&mut self, row: Row) -> Result<(), AllocError>
        ensures ok { OnOk result (self.new ≡ map.insert self.old row.ino row) }
        ensures err { OnErr result (self.new ≡ self.old) }
    {
        self.rows.insert(row.ino, row)?;
        Ok(())
    }

    /// Puts a row in the place of the one at its ino, which it gives back; where there is none, the row comes back and
    /// the tree stays as it was. Takes no memory.
    pub fn replace(&mut self, row: Row) -> Result<Row, Row>
        ensures ok { IfOk result (λ old. (map.get self.old row.ino ≡ Some old) × (self.new ≡ map.insert self.old row.ino row)) }
        ensures err { IfErr result (λ back. (back ≡ row) × (map.get self.old row.ino ≡ None) × (self.new ≡ self.old)) }
    {
        match self.rows.get_mut(&row.ino) {
            Some(place) => Ok(mem::replace(place, row)),
            None => Err(row),
        }
    }

    /// Takes the row of an ino out, and answers it; `None` where there is none.
    pub fn remove(&mut self, ino: u32) -> Option<Row>
        ensures removed { result ≡ map.get self.old ino }
        ensures tree { self.new ≡ map.remove self.old ino }
    {
        self.rows.remove(&ino)
    }

    /// The inos of all rows, rising.
    pub fn inos(&self) -> Result<Vec<u32>, AllocError>
        ensures { IfOk result (λ inos. inos.items ≡ map.keys self.now) }
    {
        self.rows.keys().copied().collect(self.alloc)
    }

    /// The rows, in rising ino.
    pub fn rows(&self) -> Values<'_, u32, Row>
        ensures rows { result ≡ map.values self.now }
        ensures runs { ShowsInOrder (deref {X = Row}) }
        ensures fits { length result < 2 ^ 63 }
    {
        self.rows.values()
    }
}
