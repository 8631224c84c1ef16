//! The direct nodes of a file: drawn, and written.
ghost use Rattle.f2_event_laws.specs.Nodes.{DrawnNodesKeep, SubmittedSlotsKeep};
ghost use Rattle.f2_event_laws.specs.WholeNodes.{DrawnNodesKeepWhole, SubmittedSlotsKeepWhole};

/// The next position that an fsync draws for a dirty direct node of its file keeps it, with the node's block there.
pub fn drawn_nodes_keep()
    ensures { DrawnNodesKeep }
{}

/// The write of an fsync's slot keeps it: the node stands at the slot's position from then on, and the position is written.
pub fn submitted_slots_keep()
    ensures { SubmittedSlotsKeep }
{}

/// The next position that an fsync draws for a dirty direct node of its file keeps all that a running volume keeps: the
/// node's nid is its own in base and log.
pub fn drawn_nodes_keep_whole()
    ensures { DrawnNodesKeepWhole }
{}

/// So does the write of an fsync's slot.
pub fn submitted_slots_keep_whole()
    ensures { SubmittedSlotsKeepWhole }
{}
