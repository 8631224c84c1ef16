//! What a crash may leave in any run.
ghost use Rattle.f2_room_laws.specs.Running.{RunsStayProper, ProperStatesLeaveProperTrees, WhatMayRemainIsProper, LiveTreesAreProper};

/// In every run of an image that was just made, whatever failed and however often it crashed, each base
/// with its marks that a crash may leave makes a proper tree, and what calls see is one. The same holds of a
/// run from any proper state.
pub fn what_may_remain_is_proper()
    ensures runs { RunsStayProper }
    ensures left { ProperStatesLeaveProperTrees }
    ensures remains { WhatMayRemainIsProper }
    ensures live { LiveTreesAreProper }
{}
