//! What refused calls, and calls that change nothing, leave of a tree.
ghost use Rattle.f2_laws.specs.Refusals.{RefusalLeavesTheTree, WantOfSpaceLeavesTheTree, ReadersLeaveTheTree};

/// A refusal is the whole answer: the tree stays as it was. A call that only reads, or only makes
/// durable, leaves the tree too.
pub fn refusals_leave_the_tree()
    ensures refused { RefusalLeavesTheTree }
    ensures space { WantOfSpaceLeavesTheTree }
    ensures readers { ReadersLeaveTheTree }
{}
