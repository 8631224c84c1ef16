//! All that a running volume keeps, from the end of a checkpoint on.
ghost use Rattle.f2_checkpoint_laws.specs.Ended.{LastFlushesKeepWhole, LayoutsAfterTellNumbers, TailsEndWhole, CheckpointsEndWhole};

/// The last flush of a checkpoint leaves all that a running volume keeps: an empty node log, and for each node and each
/// page of the tree the nid and the address that are its own.
pub fn last_flushes_keep_whole()
    ensures { LastFlushesKeepWhole }
{}

/// The nids and the owners that the layout has from then on are exactly those of the tree's nodes and pages.
pub fn layouts_after_tell_numbers()
    ensures { LayoutsAfterTellNumbers }
{}

/// So where a checkpoint has written all but its tail, a flush, the tail, and the last flush lead there; and so does a
/// whole checkpoint from what a running volume keeps, with all its writes to free addresses.
pub fn tails_end_whole()
    ensures tail { TailsEndWhole }
    ensures all { CheckpointsEndWhole }
{}
