//! The tree of a base and the marks after it.
ghost use Rattle.f2_overlay_laws.specs.Rolled.{MarksAreMarkedPlaces, RolledRowsAreAlike, TreesAreThere};

/// A row of the tree is the file as its last mark has it, and the base's row where the file has no mark.
///
/// Files as their first marks have them would break it: one that was marked twice is in the tree with the size and the pages
/// of its second mark.
pub fn rolled_rows_are_alike()
    ensures { RolledRowsAreAlike }
{}

/// There are as many marks as marked blocks in the node log.
///
/// Marks that were the last ones of their files alone would break it: a file that was marked twice has two.
pub fn marks_are_marked_places()
    ensures { MarksAreMarkedPlaces }
{}

/// Where a base and its node log were read, the image has a base and marks, so that there is a tree of which it can be asked
/// whether it fits.
///
/// A marked inode of no kind would break it: no row is its mark.
pub fn trees_are_there()
    ensures { TreesAreThere }
{}
