//! Directories and the names in them, with the sum of what they take.
ghost use Rattle.std.specs.Prelude.{◌≡◌, OnOk, OnErr, IfOk, true};
ghost use Rattle.std.specs.FinMap as map;
ghost use Rattle.std.specs.Prelude.{◌≤◌, length};
ghost use Rattle.f2_held.specs.Taken.{opened, bound, left, closed, of_directories};
ghost use Rattle.f2_held.specs.Sums.{IsSmallSum};

use crate::both::{Both, NOTHING};
use crate::name_sets::NameSet;
use crate::sizes::exchanged;
use f2_model::Name;
use std::alloc::{AllocError, Global};
use std::collections::BTreeMap;
use std::marker::Model;

/// The names in each directory, and the sum of what the directories take.
#[derive(Debug, Drop)]
pub struct Directories {
    names: BTreeMap<u32, NameSet>,
    sum: Both,
    alloc: Global,
}

impl Model for Directories {
    ghost use Rattle.std.specs.FinMap as map;
    ghost use Rattle.std.specs.Ordering.{nat_cmp};
    ghost use Rattle.std.specs.Coded.{coded_ℕ};
    ghost use Rattle.f2_held.specs.Taken.{Names};
    ghost use Rattle.f2_held.specs.Sums.{IsDirectories, names_code};

    ghost Value = { map.FinMap nat_cmp Names };

    ghost coded = { map.code coded_ℕ names_code };

    ghost view = { λ d. map.from_entries d.names.entries };

    ghost invariant = { λ d. IsDirectories (map.from_entries d.names.entries) d.sum };
}

impl Directories {
    /// No directory, which takes no memory.
    pub fn new(alloc: Global) -> Directories
        ensures { result ≡ map.empty }
    {
        Directories {
            names: BTreeMap::new(alloc),
            sum: NOTHING,
            alloc,
        }
    }

    /// Lets a directory in, without a name where it isn't there. Where memory is refused nothing changes.
    pub fn open(&mut self, ino: u32) -> Result<(), AllocError>
        ensures ok { OnOk result (self.new ≡ opened self.old ino) }
        ensures err { OnErr result (self.new ≡ self.old) }
    {
        if self.names.contains_key(&ino) {
            return Ok(());
        }
        let names = NameSet::new(self.alloc);
        let size = names.size();
        self.names.insert(ino, names)?;
        self.sum = exchanged(self.sum, NOTHING, size);
        Ok(())
    }

    /// Puts a name into a directory. Where memory is refused nothing changes.
    pub fn bind(&mut self, parent: u32, name: &Name) -> Result<(), AllocError>
        requires parent { map.contains_key self.old parent ≡ true }
        requires name { length name.now ≤ 255 }
        ensures ok { OnOk result (self.new ≡ bound self.old parent name.now) }
        ensures err { OnErr result (self.new ≡ self.old) }
    {
        let Some(names) = self.names.get_mut(&parent) else {
            unreachable!()
        };
        let before = names.size();
        names.bind(name)?;
        let after = names.size();
        self.sum = exchanged(self.sum, before, after);
        Ok(())
    }

    /// Takes a name out of a directory, where it has it.
    pub fn leave(&mut self, parent: u32, name: &Name)
        requires parent { map.contains_key self.old parent ≡ true }
        ensures { self.new ≡ left self.old parent name.now }
    {
        let Some(names) = self.names.get_mut(&parent) else {
            unreachable!()
        };
        let before = names.size();
        names.leave(name);
        let after = names.size();
        self.sum = exchanged(self.sum, before, after);
    }

    /// Takes a directory out with its names, where it is in.
    pub fn close(&mut self, ino: u32)
        ensures { self.new ≡ closed self.old ino }
    {
        let Some(names) = self.names.remove(&ino) else {
            return;
        };
        let size = names.size();
        self.sum = exchanged(self.sum, size, NOTHING);
    }

    /// Whether a directory is in.
    pub fn has(&self, ino: u32) -> bool
        ensures { result ≡ map.contains_key self.now ino }
    {
        self.names.contains_key(&ino)
    }

    /// The sum of what the directories take.
    pub fn sum(&self) -> Both
        ensures sum { result ≡ of_directories self.now }
        ensures small { IsSmallSum result }
    {
        self.sum
    }

    /// The sum, were a name in a directory.
    pub fn sum_with(&self, parent: u32, name: &Name) -> Result<Both, AllocError>
        requires parent { map.contains_key self.now parent ≡ true }
        requires name { length name.now ≤ 255 }
        ensures sum { IfOk result (λ sum. sum ≡ of_directories (bound self.now parent name.now)) }
        ensures small { IfOk result IsSmallSum }
    {
        let Some(names) = self.names.get(&parent) else {
            unreachable!()
        };
        let after = names.size_with(name)?;
        Ok(exchanged(self.sum, names.size(), after))
    }
}
