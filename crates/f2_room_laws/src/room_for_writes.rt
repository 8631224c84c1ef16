//! Writes since the base against what an image grants.
ghost use Rattle.f2_room_laws.specs.RoomForWrites.{InitialIsRoomy, EventsKeepStatesRoomy, WritesFitInRuns, LoggedFilesAreWritten};

/// In every run of an image that was just made, whatever failed and however often it crashed, the blocks that
/// were written to each zone since the base, and those that the fsyncs in flight have still to write, are no
/// more than the image grants, as long as the volume is open. So an fsync that began finds room for all that
/// it writes, and so does each block that the flusher writes. And the node log has no more files than blocks.
pub fn writes_fit()
    ensures initial { InitialIsRoomy }
    ensures events { EventsKeepStatesRoomy }
    ensures writes { WritesFitInRuns }
    ensures logged { LoggedFilesAreWritten }
{}
