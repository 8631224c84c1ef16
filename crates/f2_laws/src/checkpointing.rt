//! How a checkpoint's tree comes to be pending, and what its end leaves.
ghost use Rattle.f2_laws.specs.Checkpointing.{TailsAlonePend, CheckpointsAreWhole};

/// A tree comes to be pending by a checkpoint's tail alone, and is the one that calls saw. The end of the
/// checkpoint makes it the base, in the checkpoint's format and the next version, and nothing is written
/// since: no mark, nothing dirty, no node in the log.
pub fn checkpoints_are_whole()
    ensures tails { TailsAlonePend }
    ensures ends { CheckpointsAreWhole }
{}
