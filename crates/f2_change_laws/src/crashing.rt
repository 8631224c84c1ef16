//! A loss of power.
ghost use Rattle.f2_change_laws.specs.Crashing.{CrashesKeep};

/// Each image that a crash leaves of a disk keeps a state that the disk kept; of the positions that were written the
/// block may be there or not.
pub fn crashes_keep()
    ensures { CrashesKeep }
{}
