//! What an acknowledged fsync has.
ghost use Rattle.f2_laws.specs.Acknowledging.{AcknowledgedAreMarked, AcksAcknowledge};

/// No more marks are acknowledged than there are, so a mount after a loss of power always finds a base
/// with marks up to some place. An event that acknowledges an fsync of a seat does so with the place of
/// its mark, and only once no position of the log below the mark's is open.
pub fn acknowledged_fsyncs_are_marked()
    ensures marked { AcknowledgedAreMarked }
    ensures acks { AcksAcknowledge }
{}
