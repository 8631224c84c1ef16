//! A direct node of a file, written by the flusher.
ghost use Rattle.f2_event_laws.specs.Flusher.{FlushedNodesKeep};

/// The next position that the flusher draws for a dirty direct node, and the write of the node there, keep all that a
/// running volume keeps, where the node's file has no dirty page.
pub fn flushed_nodes_keep()
    ensures { FlushedNodesKeep }
{}
