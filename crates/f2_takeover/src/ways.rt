//! The nodes that the pages of a file need.
ghost use Rattle.std.specs.Prelude.{◌≡◌, Some, None, IfOk, OnOk};
ghost use Rattle.std.specs.FinMap as map;
ghost use Rattle.f2_shape.specs.Routes.{route_of};
ghost use Rattle.f2_shape.specs.declared.path.Route.{Route};
ghost use Rattle.f2_takeover.specs.Nodes.{node_from, with_node, AreTakenTo, AreNodesOf};

use crate::nodes::TakenNodes;
use crate::sources::node_at;
use f2_overlay::Rolls;
use f2_recover::{PageAt, Walk};
use f2_shape::path_of;
use std::alloc::{AllocError, Global};

/// Takes the node that a file has at an offset, if it has one.
fn take_node(
    walk: &Walk,
    rolls: &Rolls,
    ino: u32,
    offset: u32,
    nodes: &mut TakenNodes,
) -> Result<(), AllocError>
    ensures { OnOk result (nodes.new ≡ with_node nodes.old offset (node_from (map.get rolls.now ino) (map.get walk.now.rows ino) offset)) }
{
    match node_at(walk, rolls, ino, offset) {
        Some(node) => nodes.put(offset, node),
        None => Ok(()),
    }
}

/// Takes the nodes that a file has at these offsets.
fn take_all(
    walk: &Walk,
    rolls: &Rolls,
    ino: u32,
    offsets: &[u32; 4],
    nodes: &mut TakenNodes,
) -> Result<(), AllocError>
    ensures { OnOk result (AreTakenTo (map.get rolls.now ino) (map.get walk.now.rows ino) offsets.now 4 nodes.old nodes.new) }
{
    for place in 0..4 {
        take_node(walk, rolls, ino, offsets[place], nodes)?;
    }
    Ok(())
}

/// Takes the nodes that a file has on the way to a page. No way leads to a page that no file can have.
fn take_way(
    walk: &Walk,
    rolls: &Rolls,
    ino: u32,
    page: u32,
    nodes: &mut TakenNodes,
) -> Result<(), AllocError>
    ensures way { OnOk result ((route : Route) → route_of page ≡ Some route → AreTakenTo (map.get rolls.now ino) (map.get walk.now.rows ino) route.nodes 4 nodes.old nodes.new) }
    ensures none { OnOk result (route_of page ≡ None → nodes.new ≡ nodes.old) }
{
    match path_of(u64::from(page)) {
        Some(route) => take_all(walk, rolls, ino, &route.nodes, nodes),
        None => Ok(()),
    }
}

/// The nodes that a file has of those that these pages need: its inode, and all on the ways to its pages.
///
/// Each page costs a look at the four nodes on its way at most.
pub(crate) fn nodes_above(
    alloc: Global,
    walk: &Walk,
    rolls: &Rolls,
    ino: u32,
    pages: &[PageAt],
) -> Result<TakenNodes, AllocError>
    ensures { IfOk result (λ nodes. AreNodesOf (map.get rolls.now ino) (map.get walk.now.rows ino) pages.now nodes) }
{
    let mut nodes = TakenNodes::new(alloc);
    take_node(walk, rolls, ino, 0, &mut nodes)?;
    for listed in pages {
        take_way(walk, rolls, ino, listed.page, &mut nodes)?;
    }
    Ok(nodes)
}
