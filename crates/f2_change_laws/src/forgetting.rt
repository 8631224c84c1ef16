//! Numbers of nodes that are forgotten.
ghost use Rattle.f2_change_laws.specs.Forgetting.{NumbersMayBeForgotten};

/// The number of a node may be forgotten where the base hasn't the node and no block of the log that counts is its: it is
/// free for another node then.
pub fn numbers_may_be_forgotten()
    ensures { NumbersMayBeForgotten }
{}
