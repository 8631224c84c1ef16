//! What a mount's checkpoint may write, and where.
ghost use Rattle.f2_mount_laws.specs.Writing.{TakenOverTreesMayBeWritten, FreeAddressesAreElsewhere, WrittenPagesStayElsewhere, WrittenNodesStayElsewhere};

/// A volume that goes on with what it takes over of the image on its disk may begin a checkpoint of it: what the laws of
/// `f2_checkpoint_laws` ask at each of its writes holds of the disk, the tree, its places and what is to be written.
pub fn taken_over_trees_may_be_written()
    ensures { TakenOverTreesMayBeWritten }
{}

/// Nothing of that tree stands at a free address, one at which nothing of the image, its marks or its node log is read;
/// and so it stays once more of the tree was written to other addresses.
pub fn free_addresses_are_elsewhere()
    ensures begin { FreeAddressesAreElsewhere }
    ensures pages { WrittenPagesStayElsewhere }
    ensures nodes { WrittenNodesStayElsewhere }
{}
