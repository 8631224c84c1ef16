//! States from which a crash leaves nothing but proper trees.
ghost use Rattle.f2_room_laws.specs.ProperStates.{InitialIsProper, EventsKeepStatesProper};

/// The state before a mount is proper where the tree that the mount will find is proper, and each event
/// leaves a proper state proper, whatever the disk's faults: what it may leave is proper, a checkpoint is alone,
/// and while the volume is open each file in fsync may be marked, with room for all that recovery may find.
pub fn events_keep_states_proper()
    ensures initial { InitialIsProper }
    ensures events { EventsKeepStatesProper }
{}
