//! Flushes, and what is acknowledged after them.
ghost use Rattle.f2_change_laws.specs.Flushing.{FlushesKeep, FlushesSettle, SettledMarksMayBeAcknowledged};

/// A flush keeps a state.
pub fn flushes_keep()
    ensures { FlushesKeep }
{}

/// A flush settles the first positions of the node log that were written: a crash leaves them as they are.
pub fn flushes_settle()
    ensures { FlushesSettle }
{}

/// Marks in settled positions may be acknowledged.
pub fn settled_marks_may_be_acknowledged()
    ensures { SettledMarksMayBeAcknowledged }
{}
