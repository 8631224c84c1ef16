//! What a crash leaves of a disk on which a state is kept.
ghost use Rattle.f2_stored_laws.specs.Safety.{StoredDisksAreSafe, ChangesInMemoryKeep};

/// A disk on which a state is kept is safe: each image that a crash may leave of it stands for what may remain of the
/// state.
pub fn stored_disks_are_safe()
    ensures { StoredDisksAreSafe }
{}

/// What changes in memory alone changes nothing in what a disk keeps.
pub fn changes_in_memory_keep()
    ensures { ChangesInMemoryKeep }
{}
