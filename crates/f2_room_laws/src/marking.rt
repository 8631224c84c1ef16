//! One marked row more over a base.
ghost use Rattle.f2_room_laws.specs.Marking.{RowsComeInWell, MarksComeInWell};

/// A good tree that a file's row is put into stays good, where no directory stands at its ino, its own
/// directory is there, and no other row has its name. So a base with its marks stays proper by one mark
/// more, as long as some rows that have all of theirs among them take no more than is granted.
pub fn marks_come_in_well()
    ensures good { RowsComeInWell }
    ensures proper { MarksComeInWell }
{}
