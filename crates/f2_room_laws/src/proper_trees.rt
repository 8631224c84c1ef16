//! Trees that an image can hold.
ghost use Rattle.f2_room_laws.specs.ProperTrees.{GeometriesHaveRoomForRoot, BareTreeIsProper};

/// An image whose sizes break no limit has a node and a number for the root, and wherever there is such
/// room the tree of the root alone is proper: good, and within the limits.
pub fn bare_tree_is_proper()
    ensures room { GeometriesHaveRoomForRoot }
    ensures bare { BareTreeIsProper }
{}
