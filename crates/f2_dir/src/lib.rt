//! The names of one directory, in memory.
//!
//! A volume keeps each directory that it has read as a map, and packs the whole map into dentry blocks when
//! it writes the directory. On the image a directory is those blocks alone (`struct f2fs_dentry_block` of
//! f2fs_fs.h); the kernel looks names up in them by hash (`f2fs_find_entry`, fs/f2fs/dir.c), and here no
//! hash is needed.
//!
//! What the layer above uses: contracts see a [`Dir`] as a map from name to ino and kind, whose names stand
//! in the order of their bytes. [`Dir::dents`] gives them in that order, as `f2_dentry_block::pack` takes
//! them.
//!
//! The definitions stand in `specs/Entries.antt`.
#![tactic(auto)]

ghost use Rattle.std.specs.Prelude.{◌≡◌, OnOk, OnErr, IfOk};
ghost use Rattle.std.specs.FinMap as map;
ghost use Rattle.f2_dir.specs.Entries.{dents_of};

use f2_dentry_block::Dent;
use f2_model::{Kind, Name};
use std::alloc::{AllocError, Global};
use std::collections::BTreeMap;
use std::marker::Model;

/// The names of a directory, each bound to an ino and a kind.
#[derive(Drop)]
pub struct Dir {
    entries: BTreeMap<Vec<u8>, (u32, Kind)>,
    alloc: Global,
}

impl Model for Dir {
    ghost use Rattle.std.specs.Prelude.{map as map_list};
    ghost use Rattle.std.specs.FinMap as map;
    ghost use Rattle.f2_dir.specs.Entries.{Entries, entries_code};

    ghost Value = { Entries };

    ghost coded = { entries_code };

    ghost view = { λ d. map.from_entries (map_list (λ e. (e.0.items, e.1)) d.entries.entries) };
}

impl Dir {
    /// A directory without names, which takes no memory.
    pub fn new(alloc: Global) -> Self
        ensures { result ≡ map.empty }
    {
        Dir {
            entries: BTreeMap::new(alloc),
            alloc,
        }
    }

    /// What the name is bound to, or `None` exactly where it isn't there.
    pub fn get(&self, name: &Name) -> Option<(u32, Kind)>
        ensures { result ≡ map.get self.now name.now }
    {
        self.entries.get(name.as_slice()).copied()
    }

    /// Binds the name, also where it was bound before. An error leaves the directory as it was.
    pub fn put(&mut self, name: Name, ino: u32, kind: Kind) -> Result<(), AllocError>
        ensures ok { OnOk result (self.new ≡ map.insert self.old name (ino, kind)) }
        ensures err { OnErr result (self.new ≡ self.old) }
    {
        self.entries.insert(name.into_vec(), (ino, kind))?;
        Ok(())
    }

    /// Takes the name out and returns what it was bound to, or `None` exactly where it isn't there.
    pub fn take(&mut self, name: &Name) -> Option<(u32, Kind)>
        ensures taken { result ≡ map.get self.old name.now }
        ensures left { self.new ≡ map.remove self.old name.now }
    {
        self.entries.remove(name.as_slice())
    }

    /// A copy of all names with what they are bound to, in the order of the names' bytes.
    pub fn dents(&self) -> Result<Vec<Dent>, AllocError>
        ensures { IfOk result (λ dents. dents.items ≡ dents_of self.now) }
    {
        let mut dents = Vec::with_capacity(self.alloc, self.entries.len())?;
        for (name, place) in &self.entries {
            let name = Name::from_slice(self.alloc, name.as_slice())?;
            let (ino, kind) = *place;
            dents.push(Dent { name, ino, kind })?;
        }
        Ok(dents)
    }
}
