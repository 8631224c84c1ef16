//! The tree of a sound image is taken over.
ghost use Rattle.f2_mount_laws.specs.Existing.{TreesAreTakenOver, UnmarkedTreesAreTakenOver};

/// Of a sound image the tree of base and marks is taken over with any layout of directories that has their names: each
/// that a mark brings a name into has to be laid out so, any other may be, as long as a third of each zone holds the
/// tree. Nodes that base and log haven't get nids of their own. With no marks the base is taken over as it stands.
pub fn trees_are_taken_over()
    ensures taken { TreesAreTakenOver }
    ensures unmarked { UnmarkedTreesAreTakenOver }
{}
