//! Writes and flushes of a checkpoint that fail.
ghost use Rattle.f2_checkpoint_laws.specs.Faults.{FailedBlocksLeave, FailedFirstFlushesLeave, FailedTailsLeave, FailedLastFlushesLeave};

/// Where the write of a block before the tail fails, the disk keeps the state in which the volume is closed, whether the
/// block stands at its address or not.
pub fn failed_blocks_leave()
    ensures { FailedBlocksLeave }
{}

/// A first flush that fails leaves all as it is.
pub fn failed_first_flushes_leave()
    ensures { FailedFirstFlushesLeave }
{}

/// Where the write of the tail fails, the live tree is one that a crash may leave, whether the tail stands or not.
pub fn failed_tails_leave()
    ensures { FailedTailsLeave }
{}

/// Where the last flush fails, that tree is still pending.
pub fn failed_last_flushes_leave()
    ensures { FailedLastFlushesLeave }
{}
