//! A base that was read.
ghost use Rattle.f2_recover_laws.specs.Sound.{BasesAreRight, BasesAreThere, RowsAreAlike};

/// A base that was read has none of the faults that an image's base can have.
pub fn bases_are_right()
    ensures { BasesAreRight }
{}

/// The rows that were read are those of the image's base.
pub fn rows_are_alike()
    ensures { RowsAreAlike }
{}

/// Where a base was read, the image has a base.
pub fn bases_are_there()
    ensures { BasesAreThere }
{}
