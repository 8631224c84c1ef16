//! Numbers for new rows.
ghost use Rattle.f2_room_laws.specs.FreeNumbers.{OpenStatesAreWithinLimits, NumbersAreFree};

/// Where an image has three numbers for each node, a new row finds a free number in every run of an image that
/// was just made, as long as the volume is open: the rows that calls see, those of the base and the files of the
/// log are each no more than its nodes. So a create or a mkdir is refused for want of nodes, and never for want
/// of a number.
pub fn numbers_are_free()
    ensures within { OpenStatesAreWithinLimits }
    ensures free { NumbersAreFree }
{}
