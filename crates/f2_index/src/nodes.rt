//! What is kept of a file's direct nodes, with a list of the dirty ones.
ghost use Rattle.std.specs.Prelude.{◌≡◌, true, None, IsSome, IfOk, OnOk, OnErr};
ghost use Rattle.std.specs.List.Sorted.{IsStrictlyIncreasing};
ghost use Rattle.std.specs.FinMap as map;
ghost use Rattle.std.specs.FinSet as set;
ghost use Rattle.f2_index.specs.Nodes.{dirty_of, cleaned};

use crate::table::Table;
use std::alloc::{AllocError, Global};
use std::marker::Model;

/// What is kept of a direct node that has a page: how many it has, and whether it is dirty.
#[derive(Clone, Copy)]
pub struct Node {
    pub pages: u32,
    pub dirty: bool,
}

/// How a node is stored: a dirty one has a place in the list of the dirty ones.
#[derive(Clone, Copy)]
struct Slot {
    pages: u32,
    place: Option<usize>,
}

/// What is kept of direct nodes, by their offsets.
///
/// A node that is there becomes dirty without memory, and the dirty ones are found without a look at the others.
#[derive(Drop)]
pub struct NodeTable {
    slots: Table<Slot>,
    // The offsets of the dirty nodes, in no order, with room for those of all.
    dirty: Vec<u32>,
}

impl Model for NodeTable {
    ghost use Rattle.std.specs.Prelude.{vec_capacity};
    ghost use Rattle.std.specs.Coded.{coded_ℕ};
    ghost use Rattle.std.specs.FinMap as map;
    ghost use Rattle.f2_index.specs.Nodes.{Nodes};
    ghost use Rattle.f2_index.specs.contracts.nodes.Node as kept;
    ghost use Rattle.f2_index.specs.Slots.{nodes_of, AreKept};

    ghost Value = { Nodes };

    ghost coded = { map.code coded_ℕ kept.the_row.coded };

    ghost view = { λ t. nodes_of t.slots };

    ghost invariant = { λ t. AreKept t.slots t.dirty.items (vec_capacity t.dirty) };
}

impl NodeTable {
    /// No nodes.
    pub fn new(alloc: Global) -> Self
        ensures { result ≡ map.empty }
    {
        NodeTable {
            slots: Table::new(alloc),
            dirty: Vec::new(alloc),
        }
    }

    /// What is kept of the node, or `None` where it isn't there.
    pub fn get(&self, offset: u32) -> Option<Node>
        ensures { result ≡ map.get self.now offset }
    {
        let slot = self.slots.get(offset)?;
        Some(Node {
            pages: slot.pages,
            dirty: slot.place.is_some(),
        })
    }

    /// Puts a new node with one page, dirty. An error leaves the nodes as they were.
    pub fn insert(&mut self, offset: u32) -> Result<(), AllocError>
        requires { map.get self.old offset ≡ None }
        ensures ok { OnOk result (self.new ≡ map.insert self.old offset (record { pages = 1; dirty = true })) }
        ensures err { OnErr result (self.new ≡ self.old) }
    {
        let place = self.dirty.len();
        self.dirty.reserve(self.slots.len() + 1 - place)?;
        self.slots.insert(
            offset,
            Slot {
                pages: 1,
                place: Some(place),
            },
        )?;
        self.dirty.push_reserved(offset);
        Ok(())
    }

    /// Makes a node that is there dirty, and gives it this many pages. It takes no memory.
    pub fn set_dirty(&mut self, offset: u32, pages: u32)
        requires { IsSome (map.get self.old offset) }
        ensures { self.new ≡ map.insert self.old offset (record { pages = pages; dirty = true }) }
    {
        let slot = self.slots.get(offset).unwrap();
        if slot.place.is_some() {
            self.slots.replace(offset, Slot { pages, ..slot });
            return;
        }
        let place = self.dirty.len();
        self.dirty.push_reserved(offset);
        self.slots.replace(
            offset,
            Slot {
                pages,
                place: Some(place),
            },
        );
    }

    /// Makes the node clean, where it is there.
    pub fn clean(&mut self, offset: u32)
        ensures { self.new ≡ cleaned self.old offset }
    {
        let Some(slot) = self.slots.get(offset) else {
            return;
        };
        let Some(place) = slot.place else {
            return;
        };
        // The last of the list takes the node's place there.
        let last = self.dirty[self.dirty.len() - 1];
        let moved = self.slots.get(last).unwrap();
        self.slots.replace(
            last,
            Slot {
                place: Some(place),
                ..moved
            },
        );
        self.dirty.swap_remove(place);
        self.slots.replace(
            offset,
            Slot {
                place: None,
                ..slot
            },
        );
    }

    /// Takes the node out.
    pub fn remove(&mut self, offset: u32)
        ensures { self.new ≡ map.remove self.old offset }
    {
        self.clean(offset);
        self.slots.remove(offset);
    }

    /// The offsets of the dirty nodes, rising. It looks at no other node.
    pub fn dirty(&self) -> Result<Vec<u32>, AllocError>
        ensures dirty { IfOk result (λ offsets. set.from_list offsets.items ≡ dirty_of self.now) }
        ensures rising { IfOk result (λ offsets. IsStrictlyIncreasing offsets.items) }
    {
        let mut offsets = self.dirty.clone()?;
        offsets.sort_unstable();
        Ok(offsets)
    }
}
