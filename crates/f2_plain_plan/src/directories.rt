//! The names in each directory of a tree.
ghost use Rattle.std.specs.Prelude.{◌≡◌, All, IfOk, OnOk, length, map as map_list};
ghost use Rattle.std.specs.FinMap as map;
ghost use Rattle.f2_format.specs.Packing.{blocks_of_names};
ghost use Rattle.f2_dentry_block.specs.Dents.{dentry_of};
ghost use Rattle.f2_dentry_block.specs.Packed.{HasNameLength, names_of, packed_blocks};
ghost use Rattle.f2_plain_plan.specs.Directories.{bound, dents_in, rows_at, IsNamesOf};

use f2_dentry_block::pack;
use f2_dir::Dir;
use f2_disk::Block;
use f2_model::{Row, Tree};
use std::alloc::{AllocError, Global};
use std::collections::BTreeMap;
use std::marker::Model;

/// The ino of the root, which has no name.
const ROOT: u32 = 3;

/// The names in each directory that has some.
#[derive(Drop)]
pub(crate) struct Directories {
    names: BTreeMap<u32, Dir>,
    alloc: Global,
}

impl Model for Directories {
    ghost use Rattle.std.specs.FinMap as map;
    ghost use Rattle.f2_plain_plan.specs.Directories.{AllNames, names_code};

    ghost Value = { AllNames };

    ghost coded = { names_code };

    ghost view = { λ d. map.from_entries d.names.entries };
}

impl Directories {
    /// No name, which takes no memory.
    fn new(alloc: Global) -> Directories
        ensures { result ≡ map.empty }
    {
        Directories {
            names: BTreeMap::new(alloc),
            alloc,
        }
    }

    /// The names of all rows of a tree.
    pub(crate) fn of(alloc: Global, tree: &Tree) -> Result<Directories, AllocError>
        ensures { IfOk result (IsNamesOf tree.now) }
    {
        let rows = rows_of(alloc, tree)?;
        let mut directories = Directories::new(alloc);
        for row in &rows {
            if row.ino != ROOT {
                directories.bind(row)?;
            }
        }
        Ok(directories)
    }

    /// Puts the name of a row into its directory. After an error some directory may be there without a name.
    fn bind(&mut self, row: &Row) -> Result<(), AllocError>
        ensures { OnOk result (self.new ≡ bound self.old row.now) }
    {
        let name = row.name.copy(self.alloc)?;
        match self.names.get_mut(&row.parent) {
            Some(names) => names.put(name, row.ino, row.kind),
            None => {
                let mut names = Dir::new(self.alloc);
                names.put(name, row.ino, row.kind)?;
                self.names.insert(row.parent, names)?;
                Ok(())
            }
        }
    }

    /// The dentry blocks of a directory.
    pub(crate) fn blocks_of(&self, directory: u32) -> Result<Vec<Block>, AllocError>
        requires { All (λ dent. HasNameLength dent.name) (dents_in self.now directory) }
        ensures blocks { IfOk result (λ blocks. blocks.items ≡ packed_blocks (map_list dentry_of (dents_in self.now directory))) }
        ensures count { IfOk result (λ blocks. length blocks.items ≡ blocks_of_names (names_of (map_list dentry_of (dents_in self.now directory)))) }
    {
        match self.names.get(&directory) {
            Some(names) => pack(self.alloc, names.dents()?.as_slice()),
            None => Ok(Vec::new(self.alloc)),
        }
    }
}

/// The rows of a tree, in rising ino.
pub(crate) fn rows_of<'a>(alloc: Global, tree: &'a Tree) -> Result<Vec<&'a Row>, AllocError>
    ensures { IfOk result (λ rows. rows_at rows.items ≡ map.values tree.now) }
{
    tree.rows().collect(alloc)
}
