//! How many addresses base and marks own.
ghost use Rattle.f2_zone_laws.specs.Owned.{OwnersFit};

/// What base and marks own of the zone of data blocks, with the pages of a file that is marked next, fits two thirds of
/// it. Were an owned page not counted as in use, more of them could come to be than a recovery has room for.
pub fn owners_fit()
    ensures { OwnersFit }
{}
