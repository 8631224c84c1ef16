//! What stays counted as a state goes on.
ghost use Rattle.f2_since.specs.Events.{OthersDontCount, FsyncsGoOn, FsyncsEnd};

/// What was counted stays what a state has as an fsync goes on to another part, as one ends whose mark is drawn, and
/// as anything changes that isn't counted.
pub fn counts_stay()
    ensures others { OthersDontCount }
    ensures go_on { FsyncsGoOn }
    ensures end { FsyncsEnd }
{}
