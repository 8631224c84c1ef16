//! What a checkpoint writes before its tail, and its first flush.
ghost use Rattle.f2_checkpoint_laws.specs.Writing.{CheckpointPagesStand, CheckpointNodesStand, CheckpointBlocksKeep, CheckpointFlushesKeep};

/// A page that a checkpoint writes to a free address stands there from then on; what else counts stays.
pub fn checkpoint_pages_stand()
    ensures { CheckpointPagesStand }
{}

/// So does a node.
pub fn checkpoint_nodes_stand()
    ensures { CheckpointNodesStand }
{}

/// The write of another block to a free address keeps all that counts, made or failed.
pub fn checkpoint_blocks_keep()
    ensures { CheckpointBlocksKeep }
{}

/// So does the first flush.
pub fn checkpoint_flushes_keep()
    ensures { CheckpointFlushesKeep }
{}
