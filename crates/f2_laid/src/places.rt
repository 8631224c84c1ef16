//! Where the files of a tree stand.
ghost use Rattle.std.specs.Prelude.{◌≡◌, ◌^◌, ◌<◌, length, OnOk, OnErr};
ghost use Rattle.std.specs.FinMap as map;
ghost use Rattle.std.specs.Map.Iter.{ShowsInOrder, deref};
ghost use Rattle.std.specs.Option.{option_copied};
ghost use Rattle.f2_laid.specs.declared.places.Place.{Place};

use std::alloc::{AllocError, Global};
use std::collections::BTreeMap;
use std::collections::btree_map::Values;
use std::marker::Model;

/// Where a file stands: the address of its inode, and those of its pages 0 to 922, 0 where there is no block. The
/// pages of a directory are its dentry blocks.
#[derive(Clone, Copy, Debug, PartialEq, Eq)]
pub struct Place {
    pub at: u32,
    pub addresses: [u32; 923],
}

/// Where the files of a tree stand, by their inos.
#[derive(Debug, Drop)]
pub struct Places {
    places: BTreeMap<u32, Place>,
}

impl Model for Places {
    ghost use Rattle.std.specs.Prelude.{List, ℕ};
    ghost use Rattle.std.specs.Ordering.{nat_cmp};
    ghost use Rattle.std.specs.FinMap as map;
    ghost use Rattle.std.specs.Coded.{coded_ℕ};
    ghost use Rattle.f2_laid.specs.declared.places.Place.{Place};
    ghost use Rattle.f2_laid.specs.contracts.places.Place as place;

    ghost Value = { map.FinMap nat_cmp Place };

    ghost coded = { map.code coded_ℕ place.the_row.coded };

    ghost view = { λ p. map.from_entries p.places.entries };
}

impl Places {
    /// No file, which takes no memory.
    pub fn new(alloc: Global) -> Places
        ensures { result ≡ map.empty }
    {
        Places {
            places: BTreeMap::new(alloc),
        }
    }

    /// Where the file of an ino stands, or `None` where there is no such file.
    pub fn get(&self, ino: u32) -> Option<&Place>
        ensures { option_copied result ≡ map.get self.now ino }
    {
        self.places.get(&ino)
    }

    /// Tells where the file of an ino stands. Where memory is refused nothing changes.
    pub fn put(&mut self, ino: u32, place: Place) -> Result<(), AllocError>
        ensures ok { OnOk result (self.new ≡ map.insert self.old ino place) }
        ensures err { OnErr result (self.new ≡ self.old) }
    {
        self.places.insert(ino, place)?;
        Ok(())
    }

    /// Where the files stand, in rising ino.
    pub fn places(&self) -> Values<'_, u32, Place>
        ensures places { result ≡ map.values self.now }
        ensures runs { ShowsInOrder (deref {X = Place}) }
        ensures fits { length result < 2 ^ 63 }
    {
        self.places.values()
    }
}
