//! Names that directories bind to files.
ghost use Rattle.std.specs.Prelude.{◌≡◌, ◌≢◌, None, Err, OnOk, map as map_list};
ghost use Rattle.std.specs.FinMap as map;
ghost use Rattle.f2_dentry_block.specs.Dents.{dentry_of};
ghost use Rattle.f2_plain_read.specs.Bindings.{with_names, AreFresh};

use crate::faults::BuildFault;
use f2_dentry_block::Dent;
use f2_model::Name;
use std::alloc::Global;
use std::collections::BTreeMap;
use std::marker::Model;

/// The directory of a file, and its name there.
#[derive(Debug, Drop)]
pub(crate) struct Bound {
    pub parent: u32,
    pub name: Name,
}

/// The names of files, by their inos.
#[derive(Debug, Drop)]
pub(crate) struct Names {
    names: BTreeMap<u32, Bound>,
}

impl Model for Names {
    ghost use Rattle.std.specs.Prelude.{List, ℕ};
    ghost use Rattle.std.specs.Ordering.{nat_cmp};
    ghost use Rattle.std.specs.FinMap as map;
    ghost use Rattle.std.specs.Coded.{coded_ℕ};
    ghost use Rattle.f2_plain_read.specs.declared.names.Bound.{Bound};
    ghost use Rattle.f2_plain_read.specs.contracts.names.Bound as bound;

    ghost Value = { map.FinMap nat_cmp Bound };

    ghost coded = { map.code coded_ℕ bound.the_row.coded };

    ghost view = { λ n. map.from_entries n.names.entries };
}

impl Names {
    /// No name, which takes no memory.
    pub(crate) fn new(alloc: Global) -> Names
        ensures { result ≡ map.empty }
    {
        Names {
            names: BTreeMap::new(alloc),
        }
    }

    /// Takes out the name of a file; `None` where it has none.
    pub(crate) fn take(&mut self, ino: u32) -> Option<Bound>
        ensures taken { result ≡ map.get self.old ino }
        ensures left { self.new ≡ map.remove self.old ino }
    {
        self.names.remove(&ino)
    }

    /// Binds the names of a directory. `Bad` is for a file that would have two names.
    pub(crate) fn bind_all(&mut self, directory: u32, dents: Vec<Dent>) -> Result<(), BuildFault>
        ensures bound { OnOk result (self.new ≡ with_names directory self.old (map_list dentry_of dents.items)) }
        ensures bad { result ≡ Err BuildFault.Bad → ¬ (AreFresh directory self.old (map_list dentry_of dents.items)) }
    {
        for Dent { name, ino, .. } in dents {
            let parent = directory;
            self.bind(ino, Bound { parent, name })?;
        }
        Ok(())
    }

    /// Binds a name to a file that has none.
    fn bind(&mut self, ino: u32, bound: Bound) -> Result<(), BuildFault>
        ensures fresh { OnOk result (map.get self.old ino ≡ None) }
        ensures bound { OnOk result (self.new ≡ map.insert self.old ino bound) }
        ensures bad { result ≡ Err BuildFault.Bad → map.get self.old ino ≢ None }
    {
        if self.names.contains_key(&ino) {
            return Err(BuildFault::Bad);
        }
        self.names.insert(ino, bound)?;
        Ok(())
    }
}
