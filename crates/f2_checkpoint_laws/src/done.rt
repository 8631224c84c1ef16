//! The last flush of a checkpoint.
ghost use Rattle.f2_checkpoint_laws.specs.Done.{LastFlushesKeep};

/// Where all of the live tree was written and reads give its tail, a flush makes it the base, and the volume keeps its live
/// tree from then on with an empty node log.
pub fn last_flushes_keep()
    ensures { LastFlushesKeep }
{}
