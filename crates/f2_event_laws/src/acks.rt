//! The last flush of an fsync.
ghost use Rattle.f2_event_laws.specs.Acks.{AcknowledgementsKeep};
ghost use Rattle.f2_event_laws.specs.WholeAcks.{AcknowledgementsKeepWhole};

/// The last flush of an fsync below whose mark no position is open acknowledges every mark up to its own: a crash leaves
/// each of them.
pub fn acknowledgements_keep()
    ensures { AcknowledgementsKeep }
{}

/// The last flush of an fsync keeps all that a running volume keeps, with every position up to its mark settled.
pub fn acknowledgements_keep_whole()
    ensures { AcknowledgementsKeepWhole }
{}
