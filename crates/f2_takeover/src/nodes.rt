//! The nodes of a file.
ghost use Rattle.std.specs.Prelude.{◌≡◌, OnOk, IfOk, map as map_list};
ghost use Rattle.std.specs.FinMap as map;

use f2_overlay::NodeAt;
use std::alloc::{AllocError, Global};
use std::collections::BTreeMap;
use std::marker::Model;

/// A node of a file: its place among the nodes of the file, its nid, and the address of its block.
#[derive(Clone, Copy, Debug)]
pub struct TakenNode {
    pub offset: u32,
    pub nid: u32,
    pub at: u32,
}

/// The nodes of a file, by their offsets.
#[derive(Drop)]
pub struct TakenNodes {
    nodes: BTreeMap<u32, NodeAt>,
}

impl Model for TakenNodes {
    ghost use Rattle.std.specs.Ordering.{nat_cmp};
    ghost use Rattle.std.specs.FinMap as map;
    ghost use Rattle.std.specs.Coded.{coded_ℕ};
    ghost use Rattle.f2_overlay.specs.declared.taking.NodeAt.{NodeAt};
    ghost use Rattle.f2_overlay.specs.contracts.taking.NodeAt as node;

    ghost Value = { map.FinMap nat_cmp NodeAt };

    ghost coded = { map.code coded_ℕ node.the_row.coded };

    ghost view = { λ n. map.from_entries n.nodes.entries };
}

impl TakenNodes {
    /// No nodes, which takes no memory.
    pub(crate) fn new(alloc: Global) -> TakenNodes
        ensures { result ≡ map.empty }
    {
        TakenNodes {
            nodes: BTreeMap::new(alloc),
        }
    }

    /// The node at an offset, or `None` where none is there.
    pub fn get(&self, offset: u32) -> Option<NodeAt>
        ensures { result ≡ map.get self.now offset }
    {
        self.nodes.get(&offset).copied()
    }

    /// The nodes, by rising offsets.
    pub fn listed(&self, alloc: Global) -> Result<Vec<TakenNode>, AllocError>
        ensures { IfOk result (λ list. list.items ≡ map_list (λ entry. record { offset = entry.0; nid = entry.1.nid; at = entry.1.at }) (map.entries self.now)) }
    {
        let mut list = Vec::with_capacity(alloc, self.nodes.len())?;
        for (offset, node) in &self.nodes {
            list.push(TakenNode {
                offset: *offset,
                nid: node.nid,
                at: node.at,
            })?;
        }
        Ok(list)
    }

    /// Puts the node at an offset, in place of one that is there.
    pub(crate) fn put(&mut self, offset: u32, node: NodeAt) -> Result<(), AllocError>
        ensures { OnOk result (self.new ≡ map.insert self.old offset node) }
    {
        self.nodes.insert(offset, node)?;
        Ok(())
    }
}
