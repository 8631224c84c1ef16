//! What keeps the node log telling the live tree.
ghost use Rattle.f2_live_laws.specs.Telling.{DrawnNodesAreTold, MarksTellNoNodes, CheckpointsTellAll};

/// A direct node that is drawn for a block which tells its places is told from then on.
pub fn drawn_nodes_are_told()
    ensures { DrawnNodesAreTold }
{}

/// A mark changes nothing in what the log tells of direct nodes.
pub fn marks_tell_no_nodes()
    ensures { MarksTellNoNodes }
{}

/// After a checkpoint nothing is left to be told.
pub fn checkpoints_tell_all()
    ensures { CheckpointsTellAll }
{}
