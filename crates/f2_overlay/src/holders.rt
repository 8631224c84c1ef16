//! The nodes of the blocks of a node log, by their nids.
ghost use Rattle.std.specs.Prelude.{◌≡◌, OnOk, OnErr};
ghost use Rattle.std.specs.FinMap as map;
ghost use Rattle.std.specs.Option.{option_copied};

use std::alloc::{AllocError, Global};
use std::collections::BTreeMap;
use std::marker::Model;

/// A node that has a nid: its file, and its place among the nodes of the file.
#[derive(Clone, Copy)]
pub(crate) struct Holder {
    pub ino: u32,
    pub offset: u32,
}

/// The nodes that have nids.
#[derive(Drop)]
pub(crate) struct Holders {
    owners: BTreeMap<u32, Holder>,
}

impl Model for Holders {
    ghost use Rattle.std.specs.Ordering.{nat_cmp};
    ghost use Rattle.std.specs.FinMap as map;
    ghost use Rattle.std.specs.Coded.{coded_ℕ};
    ghost use Rattle.f2_overlay.specs.declared.holders.Holder.{Holder};
    ghost use Rattle.f2_overlay.specs.contracts.holders.Holder as owner;

    ghost Value = { map.FinMap nat_cmp Holder };

    ghost coded = { map.code coded_ℕ owner.the_row.coded };

    ghost view = { λ o. map.from_entries o.owners.entries };
}

impl Holders {
    /// No nodes, which takes no memory.
    pub(crate) fn new(alloc: Global) -> Holders
        ensures { result ≡ map.empty }
    {
        Holders {
            owners: BTreeMap::new(alloc),
        }
    }

    /// The node that has a nid, or `None` where none has it.
    pub(crate) fn get(&self, nid: u32) -> Option<Holder>
        ensures { result ≡ map.get self.now nid }
    {
        self.owners.get(&nid).copied()
    }

    /// Puts the node that has a nid. Where memory is refused nothing changes.
    pub(crate) fn put(&mut self, nid: u32, owner: Holder) -> Result<(), AllocError>
        ensures ok { OnOk result (self.new ≡ map.insert self.old nid owner) }
        ensures err { OnErr result (self.new ≡ self.old) }
    {
        self.owners.insert(nid, owner)?;
        Ok(())
    }
}
