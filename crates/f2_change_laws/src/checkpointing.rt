//! The end of a checkpoint.
ghost use Rattle.f2_change_laws.specs.Checkpointing.{TailsMayBeWritten, FlushedTailsCount};

/// Where a disk holds a tree but for its tail, the tail may be written; from then on a crash may leave that tree.
pub fn tails_may_be_written()
    ensures { TailsMayBeWritten }
{}

/// Where reads give the tail of a pending tree, a flush makes that tree the base, with an empty node log.
pub fn flushed_tails_count()
    ensures { FlushedTailsCount }
{}
