//! The end of a mount.
ghost use Rattle.f2_mount_laws.specs.Ending.{MountsBegin, MountsEndWhole};

/// A mount that goes on with what it took over, writes all that is left of it to free addresses, and then its tail, ends
/// with its last flush as an open volume that keeps all that a running one keeps; base and marks that it found are its
/// base. The machine's mount makes a checkpoint beside which nobody is in flight.
pub fn mounts_end_whole()
    ensures begin { MountsBegin }
    ensures end { MountsEndWhole }
{}
