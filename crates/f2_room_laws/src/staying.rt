//! The row of a file in fsync.
ghost use Rattle.f2_room_laws.specs.Staying.{RowsStayInFsync};

/// As long as a seat has a file in fsync, whatever happens leaves the row that calls see of it. So the row
/// that the fsync marks is the one that it began with.
pub fn rows_stay_in_fsync()
    ensures { RowsStayInFsync }
{}
