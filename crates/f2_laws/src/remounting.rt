//! What calls see after a loss of power and a mount.
ghost use Rattle.f2_laws.specs.Remounting.{MountsBringBack};

/// Wherever a run leads, a loss of power and then a mount that finds a tree bring back the base with a
/// prefix of the marks rolled over it, among them each acknowledged one, or the tree of a checkpoint
/// whose tail was written.
pub fn mounts_bring_back()
    ensures { MountsBringBack }
{}
