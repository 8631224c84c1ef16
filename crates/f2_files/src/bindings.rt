//! The names of one directory.
ghost use Rattle.std.specs.Prelude.{◌≡◌, ℕ, ◌==◌, ◌<◌, ◌^◌, length, OnOk, OnErr, IfOk};
ghost use Rattle.std.specs.FinMap as map;
ghost use Rattle.std.specs.Map.Iter.{ShowsInOrder, deref};
ghost use Rattle.std.specs.Option.{option_copied};
ghost use Rattle.f2_format.specs.Packing.{blocks_of_names};
ghost use Rattle.f2_model.specs.declared.rows.Kind.{Kind};
ghost use Rattle.f2_files.specs.Packed.{and_come, but_gone};

use crate::packing::{NOTHING_PACKED, is_gone, placed};
use f2_model::{Kind, Name, Names};
use std::alloc::{AllocError, Global};
use std::collections::BTreeMap;
use std::collections::btree_map::Values;
use std::marker::Model;

/// The names of a directory in byte order, each bound to an ino and a kind.
#[derive(Drop)]
pub(crate) struct Bindings {
    names: BTreeMap<Vec<u8>, (u32, Kind)>,
    alloc: Global,
}

impl Model for Bindings {
    ghost use Rattle.std.specs.Prelude.{map as map_list};
    ghost use Rattle.std.specs.FinMap as map;
    ghost use Rattle.f2_dir.specs.Entries.{Entries, entries_code};

    ghost Value = { Entries };

    ghost coded = { entries_code };

    ghost view = { λ b. map.from_entries (map_list (λ e. (e.0.items, e.1)) b.names.entries) };
}

impl Bindings {
    /// No name, which takes no memory.
    pub(crate) fn new(alloc: Global) -> Bindings
        ensures { result ≡ map.empty }
    {
        Bindings {
            names: BTreeMap::new(alloc),
            alloc,
        }
    }

    /// What a name is bound to, or `None` where it isn't there.
    pub(crate) fn get(&self, name: &Name) -> Option<(u32, Kind)>
        ensures { result ≡ map.get self.now name.now }
    {
        self.names.get(name.as_slice()).copied()
    }

    /// Whether there is no name.
    pub(crate) fn is_empty(&self) -> bool
        ensures { result ≡ (map.len self.now == 0) }
    {
        self.names.len() == 0
    }

    /// What the names are bound to, in the order of the names.
    pub(crate) fn places(&self) -> Values<'_, Vec<u8>, (u32, Kind)>
        ensures places { result ≡ map.values self.now }
        ensures runs { ShowsInOrder (deref {X = ℕ × Kind}) }
        ensures fits { length result < 2 ^ 63 }
    {
        self.names.values()
    }

    /// Binds a name, also where it was bound before. An error leaves the names as they were.
    pub(crate) fn put(&mut self, name: Name, ino: u32, kind: Kind) -> Result<(), AllocError>
        ensures ok { OnOk result (self.new ≡ map.insert self.old name (ino, kind)) }
        ensures err { OnErr result (self.new ≡ self.old) }
    {
        self.names.insert(name.into_vec(), (ino, kind))?;
        Ok(())
    }

    /// Takes a name out and answers what it was bound to, or `None` where it isn't there.
    pub(crate) fn take(&mut self, name: &Name) -> Option<(u32, Kind)>
        ensures taken { result ≡ map.get self.old name.now }
        ensures left { self.new ≡ map.remove self.old name.now }
    {
        self.names.remove(name.as_slice())
    }

    /// The dentry blocks that the names fill after one left and one came, which stays where it is there already.
    ///
    /// It goes over all names.
    pub(crate) fn blocks_after(&self, gone: Option<&Name>, come: Option<&Name>) -> u64
        ensures { result ≡ blocks_of_names (and_come (option_copied come.entry) (but_gone (option_copied gone.entry) (map.keys self.now))) }
    {
        let mut reach = NOTHING_PACKED;
        let mut coming = come;
        for (name, _) in &self.names {
            if !is_gone(gone, name.as_slice()) {
                let next = placed(reach, coming, name.as_slice());
                reach = next.0;
                coming = next.1;
            }
        }
        match coming {
            Some(name) => reach.after(name.as_slice()).blocks,
            None => reach.blocks,
        }
    }

    /// A copy of the names, in byte order.
    pub(crate) fn list(&self) -> Result<Names, AllocError>
        ensures { IfOk result (λ names. names ≡ map.keys self.now) }
    {
        let mut names = Vec::with_capacity(self.alloc, self.names.len())?;
        for (name, _) in &self.names {
            names.push(Name::from_slice(self.alloc, name.as_slice())?)?;
        }
        Ok(Names::from_vec(names))
    }
}
