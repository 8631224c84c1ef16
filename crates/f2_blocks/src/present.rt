//! Which nodes a file has.
ghost use Rattle.std.specs.Prelude.{◌≡◌, ◌≢◌, ◌↔◌, ℕ, ◌+◌, ◌<◌, ◌≤◌, IsTrue, true};
ghost use Rattle.std.specs.FinMap as map;
ghost use Rattle.std.specs.FinSet as set;
ghost use Rattle.f2_format.specs.Offsets.{node_slots, page_limit};
ghost use Rattle.f2_index.specs.Paged.{nodes_of_pages};
ghost use Rattle.f2_blocks.specs.Blocks as bytes;
ghost use Rattle.f2_blocks.specs.Blocks.{HaveNids};
ghost use Rattle.f2_blocks.specs.Tree.{node_limit};

use crate::addresses::PageAddresses;
use crate::nids::Nids;
use crate::tree::{Slots, slots_of};
use f2_shape::NODE_SLOTS;

/// The nid of a node below the inode, or 0 where the file hasn't the node.
pub fn nid_of<P: PageAddresses>(index: &P, nids: &Nids, offset: u32) -> u32
    requires below { 0 < offset }
    requires limit { offset < node_limit }
    requires nids { HaveNids (P.addresses index.now) nids.now }
    ensures { result ≡ bytes.nid_of (P.addresses index.now) nids.now offset }
{
    match nids.get(offset) {
        Some(nid) if has_node(index, nids, offset) => nid,
        _ => 0,
    }
}

/// Whether the file has the node below its inode, which is where it has a page on whose way the node is.
///
/// A node without a nid isn't there. So it looks for one page, and on the way down only at nodes that have nids.
fn has_node<P: PageAddresses>(index: &P, nids: &Nids, offset: u32) -> bool
    requires below { 0 < offset }
    requires limit { offset < node_limit }
    requires nids { HaveNids (P.addresses index.now) nids.now }
    ensures { result ≡ set.contains (nodes_of_pages (P.addresses index.now)) offset }
{
    match slots_of(offset) {
        Slots::Pages(first) => has_page(index, first),
        Slots::Nodes(first, apart) => {
            for slot in 0..NODE_SLOTS {
                let node = first + slot * apart;
                if nids.get(node).is_some() && has_node(index, nids, node) {
                    return true;
                }
            }
            false
        }
    }
}

/// Whether the file has one of the pages of a direct node, whose first is this.
fn has_page<P: PageAddresses>(index: &P, first: u32) -> bool
    requires { first + node_slots ≤ page_limit }
    ensures { IsTrue result ↔ ((slot : ℕ) × (slot < node_slots) × (map.contains_key (P.addresses index.now) (first + slot) ≡ true)) }
{
    for slot in 0..NODE_SLOTS {
        if index.address(first + slot).is_some() {
            return true;
        }
    }
    false
}
