//! The flush with which a mount begins.
ghost use Rattle.f2_stored_laws.specs.Mounting.{MountsFind};

/// A disk that was safe keeps, once a mount flushed it, what the mount finds on it: one of the meanings that may
/// remain of the state.
pub fn mounts_find()
    ensures { MountsFind }
{}
