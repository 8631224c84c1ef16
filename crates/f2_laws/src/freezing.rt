//! What an fsync finds when it marks its file.
ghost use Rattle.f2_laws.specs.Freezing.{MarksAreClean};

/// In every run an event that marks a file adds the row that calls see to the marks, when none of its
/// pages and direct nodes is dirty.
pub fn marks_are_clean()
    ensures { MarksAreClean }
{}
