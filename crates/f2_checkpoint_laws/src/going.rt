//! How a checkpoint goes on to its tail.
ghost use Rattle.f2_checkpoint_laws.specs.Going.{CheckpointsMayBegin, CheckpointsGoOn};

/// A running volume may begin a checkpoint. Any number of writes and flushes of a checkpoint keep all that counts, and what isn't to be written of the live tree
/// stands at its places after them.
pub fn checkpoints_go_on()
    ensures begin { CheckpointsMayBegin }
    ensures on { CheckpointsGoOn }
{}
