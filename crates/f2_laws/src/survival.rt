//! What a crash may leave of a state, and what events do to it.
ghost use Rattle.f2_laws.specs.Survival.{CrashesLeaveTheSame, EventsKeepDurable};

/// A crash leaves what a crash before it might have left. Only a checkpoint that is done replaces the
/// base, and only it and a mount take marks away: the mount none that was acknowledged.
pub fn durable_rows_survive()
    ensures crashes { CrashesLeaveTheSame }
    ensures events { EventsKeepDurable }
{}
