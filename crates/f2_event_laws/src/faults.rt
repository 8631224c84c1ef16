//! Writes and flushes that fail.
ghost use Rattle.f2_event_laws.specs.Faults.{FailedPagesLeave, FailedSlotsLeave, FailedFlushedNodesLeave, FailedFlushesLeave};

/// Where the write of a page fails, the disk keeps the state in which the volume is closed, whether the page stands at its
/// address or not.
pub fn failed_pages_leave()
    ensures { FailedPagesLeave }
{}

/// So it does where the write of a slot's block fails, with that position failed.
pub fn failed_slots_leave()
    ensures { FailedSlotsLeave }
{}

/// And where the write of a node fails that the flusher drew.
pub fn failed_flushed_nodes_leave()
    ensures { FailedFlushedNodesLeave }
{}

/// A flush that fails leaves all as it is.
pub fn failed_flushes_leave()
    ensures { FailedFlushesLeave }
{}
