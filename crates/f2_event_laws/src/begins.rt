//! The beginning of an fsync, and what of the machine's state counts for nothing.
ghost use Rattle.f2_event_laws.specs.Begins.{BegunFsyncsKeep, RestCountsForNothing, EntriesCountForNothing, BegunChecksCountForNothing};

/// An fsync of a file of which none is in flight keeps all that a running volume keeps, as it begins from an idle seat.
pub fn begun_fsyncs_keep()
    ensures { BegunFsyncsKeep }
{}

/// Of the calls in flight what a running volume keeps reads fsyncs alone, and it reads neither the mode nor the length of
/// the history, nor which files were moved, how many pages were written or the format of the next checkpoint.
pub fn rest_counts_for_nothing()
    ensures { RestCountsForNothing }
{}

/// An entry more in the history keeps all that a running volume keeps.
pub fn entries_count_for_nothing()
    ensures { EntriesCountForNothing }
{}

/// So does a checkpoint that begins.
pub fn begun_checks_count_for_nothing()
    ensures { BegunChecksCountForNothing }
{}
