//! What recovered trees take.
ghost use Rattle.f2_held.specs.Recovered.{HeldIsTheMost, RowsComeIn, CountIsTheMost, RecoveredTreesFit};

/// What is held before an fsync is the most that the rows take which a recovery may put together; a
/// [`Held`](crate::Held) that took rows in counts the most that they take; and no good tree that recovery
/// makes of a base and marked rows takes more than the most of its rows.
pub fn recovered_trees_fit()
    ensures held { HeldIsTheMost }
    ensures rows { RowsComeIn }
    ensures count { CountIsTheMost }
    ensures fit { RecoveredTreesFit }
{}
