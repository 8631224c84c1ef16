//! The numbers of nodes.
ghost use Rattle.std.specs.Prelude.{IfSome, ◌≡◌, ◌-◌, not, ◌||◌, ◌&&◌, ◌==◌, [], ◌∷◌, map as map_list, IfOk, OnOk, OnErr};
ghost use Rattle.std.specs.List.{filter, find};
ghost use Rattle.f2_model.specs.State.{IsFreeIno};
ghost use Rattle.f2_reference_state.specs.Numbers.{after_checkpoint, after_cut, after_draw, after_mark, after_mount, after_node, found_nid, after_removal, has_nid, is_free_number, is_held, is_marked_node, is_node, log_holds, marked_by, next_number, nid_of};

use crate::plain::Plain;
use std::alloc::{AllocError, Global};
use std::marker::Model;

/// The least number that a node may have.
const FIRST_NID: u32 = 4;

/// A node of a file beside its inode, with its number.
#[derive(Clone, Copy, Debug, PartialEq, Eq)]
pub struct Node {
    pub ino: u32,
    pub offset: u32,
    pub nid: u32,
}

/// A direct node whose block stands in the node log, and whether a mark of its file stands after it.
#[derive(Clone, Copy, Debug, PartialEq, Eq)]
pub struct Logged {
    pub node: Node,
    pub is_marked: bool,
}

/// The numbers of all nodes but the inodes, whose numbers are their inos: those of the live tree, those of the base, and
/// those of the direct nodes in the node log.
#[derive(Debug, Drop)]
pub struct Numbers {
    live: Vec<Node>,
    base: Vec<Node>,
    log: Vec<Logged>,
}

impl Model for Numbers {
    ghost use Rattle.f2_reference_state.specs.Numbers as seen;

    ghost Value = { seen.Numbers };

    ghost view = { λ n. record { live = n.live.items; base = n.base.items; log = n.log.items } };
}

/// Whether one of some nodes has a number.
fn has_nid(nodes: &[Node], nid: u32) -> bool
    ensures { result ≡ has_nid nodes.now nid }
{
    nodes.iter().any(|node| node.nid == nid)
}

/// Whether a mark stands after the block of a node with this number.
fn log_holds(log: &[Logged], nid: u32) -> bool
    ensures { result ≡ log_holds log.now nid }
{
    log.iter()
        .any(|block| block.is_marked && block.node.nid == nid)
}

/// The blocks of a node that stand before a mark, in their order.
fn blocks_of(
    alloc: Global,
    log: &[Logged],
    ino: u32,
    offset: u32,
) -> Result<Vec<Logged>, AllocError>
    ensures { IfOk result (λ blocks. blocks.items ≡ filter (is_marked_node ino offset) log.now) }
{
    log.iter()
        .copied()
        .filter(|block| { block.is_marked && block.node.ino == ino && block.node.offset == offset })
        .collect(alloc)
}

/// The node of a file at an offset, among some.
fn node_at(nodes: &[Node], ino: u32, offset: u32) -> Option<Node>
    ensures { result ≡ find (is_node ino offset) nodes.now }
{
    nodes
        .iter()
        .copied()
        .find(|node| node.ino == ino && node.offset == offset)
}

/// Blocks of the node log after a mark of a file was written behind them.
fn with_mark(alloc: Global, log: &[Logged], ino: u32) -> Result<Vec<Logged>, AllocError>
    ensures { IfOk result (λ marked. marked.items ≡ map_list (marked_by ino) log.now) }
{
    log.iter()
        .map(|block| Logged {
            node: block.node,
            is_marked: block.is_marked || block.node.ino == ino,
        })
        .collect(alloc)
}

impl Numbers {
    /// Those of the root alone, whose one node is its inode. It takes no memory.
    pub fn new(alloc: Global) -> Numbers
        ensures { result ≡ record { live = []; base = []; log = [] } }
    {
        Numbers {
            live: Vec::new(alloc),
            base: Vec::new(alloc),
            log: Vec::new(alloc),
        }
    }

    /// The number of a node of the live tree.
    pub fn nid_of(&self, ino: u32, offset: u32) -> Option<u32>
        ensures { result ≡ nid_of self.now.live ino offset }
    {
        node_at(self.live.as_slice(), ino, offset).map(|node| node.nid)
    }

    /// Whether a number is that of a node of the live tree or the base, or the node log holds it, inodes aside.
    pub fn holds(&self, nid: u32) -> bool
        ensures { result ≡ is_held self.now nid }
    {
        has_nid(self.live.as_slice(), nid)
            || has_nid(self.base.as_slice(), nid)
            || log_holds(self.log.as_slice(), nid)
    }

    /// A direct node of a file was written to the node log. Where memory is refused nothing changed.
    pub fn node_logged(&mut self, ino: u32, offset: u32) -> Result<(), AllocError>
        ensures ok { OnOk result (self.new ≡ after_node self.old ino offset) }
        ensures err { OnErr result (self.new ≡ self.old) }
    {
        if let Some(node) = node_at(self.live.as_slice(), ino, offset) {
            self.log.push(Logged {
                node,
                is_marked: false,
            })?;
        }
        Ok(())
    }

    /// A mark of a file was written to the node log. Where memory is refused nothing changed.
    pub fn marked(&mut self, alloc: Global, ino: u32) -> Result<(), AllocError>
        ensures ok { OnOk result (self.new ≡ after_mark self.old ino) }
        ensures err { OnErr result (self.new ≡ self.old) }
    {
        let log = with_mark(alloc, self.log.as_slice(), ino)?;
        self.log = log;
        Ok(())
    }

    /// A checkpoint is done. Where memory is refused nothing changed.
    pub fn committed(&mut self) -> Result<(), AllocError>
        ensures ok { OnOk result (self.new ≡ after_checkpoint self.old) }
        ensures err { OnErr result (self.new ≡ self.old) }
    {
        self.base = self.live.clone()?;
        self.log.clear();
        Ok(())
    }

    /// A file was removed.
    pub fn file_removed(&mut self, ino: u32)
        ensures { self.new ≡ after_removal self.old ino }
    {
        self.live.retain(|node| node.ino != ino);
    }

    /// A file has nodes at these offsets left.
    pub fn file_cut(&mut self, ino: u32, offsets: &[u32])
        ensures { self.new ≡ after_cut self.old ino offsets.now }
    {
        self.live
            .retain(|node| node.ino != ino || offsets.contains(&node.offset));
    }

    /// A file gained a node. Where memory is refused nothing changed.
    pub fn drawn(&mut self, node: Node) -> Result<(), AllocError>
        ensures ok { OnOk result (self.new ≡ after_draw self.old node) }
        ensures err { OnErr result (self.new ≡ self.old) }
    {
        self.live.push(node)?;
        Ok(())
    }

    /// Whether nothing holds a number.
    fn is_free(&self, plain: &Plain, nid: u32) -> bool
        ensures { result ≡ is_free_number plain.now.state self.now nid }
    {
        plain.live().get(nid).is_none()
            && plain.base().get(nid).is_none()
            && !plain.logged().contains(nid)
            && !self.holds(nid)
    }

    /// The number of a node of the tree that a mount takes over, where its newest block before a mark in the node log or
    /// the base has one.
    pub fn found_nid(&self, alloc: Global, ino: u32, offset: u32) -> Result<Option<u32>, AllocError>
        ensures { IfOk result (λ nid. nid ≡ found_nid self.now ino offset) }
    {
        let found = blocks_of(alloc, self.log.as_slice(), ino, offset)?;
        match found.last() {
            Some(block) => Ok(Some(block.node.nid)),
            None => Ok(node_at(self.base.as_slice(), ino, offset).map(|node| node.nid)),
        }
    }

    /// A mount begins, and no node of the live tree is there.
    pub fn mounted(&mut self)
        ensures { self.new ≡ after_mount self.old }
    {
        self.live.clear();
    }

    /// The number that is drawn next, where there is one: the least that no node of the live tree or the base has, and
    /// that the node log doesn't hold.
    #[tactic(auto, using(crate::proofs::NextNumbers::next_is_free))]
    pub fn next(&self, plain: &Plain) -> Option<u32>
        ensures next { result ≡ next_number plain.now.limits plain.now.state self.now }

        // So it is an ino that a new row may get.
        ensures free { IfSome result (IsFreeIno plain.now.limits plain.now.state) }
    {
        (FIRST_NID..plain.limits().nids).find(|nid| self.is_free(plain, *nid))
    }
}
