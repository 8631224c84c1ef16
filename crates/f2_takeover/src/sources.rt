//! Which node a file has at an offset.
ghost use Rattle.std.specs.Prelude.{◌≡◌};
ghost use Rattle.std.specs.FinMap as map;
ghost use Rattle.f2_takeover.specs.Nodes.{node_of_roll, node_of_base, node_from};

use f2_overlay::{NodeAt, Rolls};
use f2_recover::Walk;

/// The node at an offset that the node log has of a file, or `None` where recovery takes none.
fn rolled_node(rolls: &Rolls, ino: u32, offset: u32) -> Option<NodeAt>
    ensures { result ≡ node_of_roll (map.get rolls.now ino) offset }
{
    rolls.get(ino)?.nodes.get(offset)
}

/// The node at an offset that the base has of a file, or `None` where it has none.
fn base_node(walk: &Walk, ino: u32, offset: u32) -> Option<NodeAt>
    ensures { result ≡ node_of_base (map.get walk.now.rows ino) offset }
{
    let nodes = &walk.rows.get(ino)?.file.nodes;
    let nid = nodes.nids.get(offset)?;
    let at = nodes.addresses.get(offset)?;
    Some(NodeAt { nid, at })
}

/// The node that a file has at an offset: that of the node log where recovery takes one, else the base's.
pub(crate) fn node_at(walk: &Walk, rolls: &Rolls, ino: u32, offset: u32) -> Option<NodeAt>
    ensures { result ≡ node_from (map.get rolls.now ino) (map.get walk.now.rows ino) offset }
{
    match rolled_node(rolls, ino, offset) {
        Some(node) => Some(node),
        None => base_node(walk, ino, offset),
    }
}
