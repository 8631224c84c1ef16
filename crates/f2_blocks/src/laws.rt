//! What the blocks of a file's nodes come to together.
ghost use Rattle.f2_blocks.specs.Blocks.{FootersChangeNoReading};
ghost use Rattle.f2_blocks.specs.Routes.{RoutesEndAtAddresses};

/// From a file's inode the way of each page leads through the blocks of its nodes to the address of the page, or
/// to 0 where the file hasn't the page.
pub fn routes_end_at_addresses()
    ensures { RoutesEndAtAddresses }
{}

/// A block of a node reads as the node whatever its footer is.
pub fn footers_change_no_reading()
    ensures { FootersChangeNoReading }
{}
