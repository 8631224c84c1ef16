//! The nodes of a marked file that recovery takes of the node log.
ghost use Rattle.std.specs.Prelude.{◌≡◌, OnOk, OnErr};
ghost use Rattle.std.specs.FinMap as map;
ghost use Rattle.f2_overlay.specs.Taking.{node_of};

use f2_scan::LogBlock;
use std::alloc::{AllocError, Global};
use std::collections::BTreeMap;
use std::marker::Model;

/// A node whose block stands in the node log: its nid, and the address of the block.
#[derive(Clone, Copy, Debug)]
pub struct NodeAt {
    pub nid: u32,
    pub at: u32,
}

/// The node that a block of the log has.
pub(crate) fn node_at(logged: &LogBlock) -> NodeAt
    ensures { result ≡ node_of logged.now }
{
    let footer = f2_footer::read(&logged.block);
    NodeAt {
        nid: footer.nid,
        at: logged.at,
    }
}

/// The nodes of a marked file that recovery takes of the node log, by their offsets.
#[derive(Drop)]
pub struct RollNodes {
    nodes: BTreeMap<u32, NodeAt>,
}

impl Model for RollNodes {
    ghost use Rattle.std.specs.Ordering.{nat_cmp};
    ghost use Rattle.std.specs.FinMap as map;
    ghost use Rattle.std.specs.Coded.{coded_ℕ};
    ghost use Rattle.f2_overlay.specs.declared.taking.NodeAt.{NodeAt};
    ghost use Rattle.f2_overlay.specs.contracts.taking.NodeAt as node;

    ghost Value = { map.FinMap nat_cmp NodeAt };

    ghost coded = { map.code coded_ℕ node.the_row.coded };

    ghost view = { λ n. map.from_entries n.nodes.entries };
}

impl RollNodes {
    /// No nodes, which takes no memory.
    pub(crate) fn new(alloc: Global) -> RollNodes
        ensures { result ≡ map.empty }
    {
        RollNodes {
            nodes: BTreeMap::new(alloc),
        }
    }

    /// The node at an offset, or `None` where recovery takes none there: the base's node stays, if it has one.
    pub fn get(&self, offset: u32) -> Option<NodeAt>
        ensures { result ≡ map.get self.now offset }
    {
        self.nodes.get(&offset).copied()
    }

    /// Puts the node at an offset, in place of one that is there. Where memory is refused nothing changes.
    pub(crate) fn put(&mut self, offset: u32, node: NodeAt) -> Result<(), AllocError>
        ensures ok { OnOk result (self.new ≡ map.insert self.old offset node) }
        ensures err { OnErr result (self.new ≡ self.old) }
    {
        self.nodes.insert(offset, node)?;
        Ok(())
    }
}
