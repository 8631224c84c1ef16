//! How marked rows are put in place over a base.
ghost use Rattle.f2_laws.specs.Rolling.{NoMarkLeavesTheBase, MarksRollInTurn, LastMarkIsThere};

/// Roll-forward recovery goes mark by mark, and the last mark of a file decides.
pub fn marks_roll_in_order()
    ensures none { NoMarkLeavesTheBase }
    ensures more { MarksRollInTurn }
    ensures last { LastMarkIsThere }
{}
