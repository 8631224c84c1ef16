//! Writes, made or failed.
ghost use Rattle.f2_change_laws.specs.Writing.{FreeWritesKeep, SubmitsKeep};

/// A write at a free address keeps a state, whether it is made or fails.
pub fn free_writes_keep()
    ensures { FreeWritesKeep }
{}

/// The write of an open position's block keeps a state, and the position's fate tells how it ended.
pub fn submits_keep()
    ensures { SubmitsKeep }
{}
