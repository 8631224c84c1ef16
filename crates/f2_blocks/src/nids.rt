//! The nids of a file's nodes.
ghost use Rattle.std.specs.Prelude.{◌≡◌, None, OnOk, OnErr};
ghost use Rattle.std.specs.FinMap as map;

use std::alloc::{AllocError, Global};
use std::collections::BTreeMap;
use std::marker::Model;

/// The nids of a file's nodes, by the nodes' offsets.
#[derive(Drop)]
pub struct Nids {
    nids: BTreeMap<u32, u32>,
}

impl Model for Nids {
    ghost use Rattle.std.specs.Prelude.{ℕ};
    ghost use Rattle.std.specs.Ordering.{nat_cmp};
    ghost use Rattle.std.specs.Coded.{coded_ℕ};
    ghost use Rattle.std.specs.FinMap as map;

    ghost Value = { map.FinMap nat_cmp ℕ };

    ghost coded = { map.code coded_ℕ coded_ℕ };

    ghost view = { λ n. map.from_entries n.nids.entries };
}

impl Nids {
    /// No nids. It takes no memory.
    pub fn new(alloc: Global) -> Self
        ensures { result ≡ map.empty }
    {
        Self {
            nids: BTreeMap::new(alloc),
        }
    }

    /// The nid of the node at this offset, or `None` where none was put there.
    pub fn get(&self, offset: u32) -> Option<u32>
        ensures { result ≡ map.get self.now offset }
    {
        self.nids.get(&offset).copied()
    }

    /// Puts the nid of the node at this offset, in place of one that is there. Only an offset that is new takes
    /// memory; an error changes nothing.
    pub fn put(&mut self, offset: u32, nid: u32) -> Result<(), AllocError>
        ensures ok { OnOk result (self.new ≡ map.insert self.old offset nid) }
        ensures err { OnErr result (self.new ≡ self.old) }
        ensures only_new { OnErr result (map.get self.old offset ≡ None) }
    {
        self.nids.insert(offset, nid)?;
        Ok(())
    }

    /// Takes out the nid of the node at this offset, or gives `None` where none is there.
    pub fn take(&mut self, offset: u32) -> Option<u32>
        ensures taken { result ≡ map.get self.old offset }
        ensures left { self.new ≡ map.remove self.old offset }
    {
        self.nids.remove(&offset)
    }
}
