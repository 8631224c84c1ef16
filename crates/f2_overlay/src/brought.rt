//! The names that marks bring, each with the file that brings it.
ghost use Rattle.std.specs.Prelude.{◌≡◌, ◌≢◌, ℕ, Err, IfErr, OnOk};
ghost use Rattle.std.specs.FinMap as map;
ghost use Rattle.f2_image.specs.Images.{Image};
ghost use Rattle.f2_image.specs.Packs.{Checkpoint};
ghost use Rattle.f2_image.specs.Faults.{HasTable, BringsName};
ghost use Rattle.f2_recover.specs.Faults.{IsRightFault};
ghost use Rattle.f2_recover.specs.declared.faults.MountFault.{MountFault};
ghost use Rattle.f2_overlay.specs.Brought.{bringer, with_bringer, IsBrought, AreRightTo};

use f2_dir::Dir;
use f2_model::{Kind, Name};
use f2_recover::{BadImage, MountFault};
use std::alloc::{AllocError, Global};
use std::collections::BTreeMap;
use std::marker::Model;

/// The names that marks bring, by the directories that they go into.
#[derive(Drop)]
pub(crate) struct Brought {
    names: BTreeMap<u32, Dir>,
    alloc: Global,
}

impl Model for Brought {
    ghost use Rattle.std.specs.Ordering.{nat_cmp};
    ghost use Rattle.std.specs.FinMap as map;
    ghost use Rattle.std.specs.Coded.{coded_ℕ};
    ghost use Rattle.f2_dir.specs.Entries.{Entries, entries_code};

    ghost Value = { map.FinMap nat_cmp Entries };

    ghost coded = { map.code coded_ℕ entries_code };

    ghost view = { λ b. map.from_entries b.names.entries };
}

impl Brought {
    /// No names, which takes no memory.
    pub(crate) fn new(alloc: Global) -> Brought
        ensures { result ≡ map.empty }
    {
        Brought {
            names: BTreeMap::new(alloc),
            alloc,
        }
    }

    /// The file that brings a name into a directory, or `None` where none does.
    fn get(&self, directory: u32, name: &Name) -> Option<u32>
        ensures { result ≡ bringer self.now directory name.now }
    {
        let names = self.names.get(&directory)?;
        let (ino, _) = names.get(name)?;
        Some(ino)
    }

    /// Puts a name with the file that brings it.
    fn put(&mut self, directory: u32, name: Name, ino: u32) -> Result<(), AllocError>
        ensures { OnOk result (self.new ≡ with_bringer self.old directory name ino) }
    {
        match self.names.get_mut(&directory) {
            Some(names) => names.put(name, ino, Kind::Regular),
            None => self.put_first(directory, name, ino),
        }
    }

    /// The same of the first name in its directory.
    fn put_first(&mut self, directory: u32, name: Name, ino: u32) -> Result<(), AllocError>
        ensures { OnOk result (self.new ≡ map.insert self.old directory (map.insert map.empty name (ino, Kind.Regular))) }
    {
        let mut names = Dir::new(self.alloc);
        names.put(name, ino, Kind::Regular)?;
        self.names.insert(directory, names)?;
        Ok(())
    }

    /// Notes that a file brings a name into a directory; a fault where another file brings the same.
    pub(crate) fn bring(&mut self, directory: u32, name: Name, ino: u32) -> Result<(), MountFault>
        ensures brought { OnOk result (IsBrought self.old self.new directory name ino) }
        ensures fault { IfErr result (λ fault. (image : Image) (ckpt : Checkpoint) (place : ℕ) → HasTable ckpt → AreRightTo image ckpt place self.old → BringsName image ckpt place ino directory name → IsRightFault image ckpt fault) }
        ensures no_read { result ≢ Err MountFault.Read }
    {
        if let Some(other) = self.get(directory, &name) {
            if other != ino {
                return Err(MountFault::Bad(BadImage::Conflict { ino }));
            }
            return Ok(());
        }
        self.put(directory, name, ino)?;
        Ok(())
    }
}
