//! The nodes of marked files.
ghost use Rattle.f2_overlay_laws.specs.Taken.{RolledNodesAreTaken};

/// Each node that a roll tells is that of a block that recovery takes, with its nid and its address; and of each node the last
/// such block is told.
///
/// Nodes as the first marks of files have them would break it: of a direct node that was logged again before a second mark
/// the older block would be told.
pub fn rolled_nodes_are_taken()
    ensures { RolledNodesAreTaken }
{}
