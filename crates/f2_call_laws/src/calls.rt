//! Calls of one event.
ghost use Rattle.f2_call_laws.specs.Calls.{CallsKeep};

/// Each call of one event that takes effect keeps what a running volume keeps, where what the volume knows of places
/// follows the tree.
pub fn calls_keep()
    ensures { CallsKeep }
{}
