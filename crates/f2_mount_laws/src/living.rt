//! What a mount takes over stands on the disk.
ghost use Rattle.f2_mount_laws.specs.Living.{TakenOverTreesHavePlaces, TakenOverTreesAreLive, RolledTreesOfMountsAreProper};

/// A tree that is taken over of a sound image has its places: nodes and pages apart from each other, each node with a
/// nid of its own, and each name in its directory's pages. On a disk that holds the image and its node log, all of it
/// stands there but what is to be written.
pub fn taken_over_trees_are_live()
    ensures places { TakenOverTreesHavePlaces }
    ensures live { TakenOverTreesAreLive }
{}

/// And it is a proper tree: good, and within the limits of the image.
pub fn rolled_trees_of_mounts_are_proper()
    ensures { RolledTreesOfMountsAreProper }
{}
