//! Marks that go with their base and with each other.
ghost use Rattle.f2_room_laws.specs.Fitting.{InitialIsFitting, EventsKeepStatesFitting, FittingStatesFit, MarksFit};

/// In every run of an image that was just made, whatever failed and however often it crashed, the rows that
/// were marked since the base go with it and with each other: each is a file's, in a directory of the base,
/// under a good name that no other file of the base or of a mark has there, and each tree that the marks may
/// make from the last acknowledged on is proper. The same is kept from any state that begins so.
pub fn marks_fit()
    ensures initial { InitialIsFitting }
    ensures events { EventsKeepStatesFitting }
    ensures fits { FittingStatesFit }
    ensures runs { MarksFit }
{}
