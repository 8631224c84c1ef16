//! The live tree of a running volume at its places.
ghost use Rattle.f2_place_laws.specs.Living.{WrittenTreesStand, WritesElsewhereKeep, FlushesKeepLive, WrittenPagesStand, WrittenNodesStand};

/// Where nothing of a live tree is left to be written, it stands at its places in an image that has what reads give.
pub fn written_trees_stand()
    ensures { WrittenTreesStand }
{}

/// A write at an address where nothing of a live tree stands keeps it, made or failed.
pub fn writes_elsewhere_keep()
    ensures { WritesElsewhereKeep }
{}

/// So does a flush.
pub fn flushes_keep_live()
    ensures { FlushesKeepLive }
{}

/// A page that was written to a free address stands there from then on; the node that tells its address is to be written.
pub fn written_pages_stand()
    ensures { WrittenPagesStand }
{}

/// A node that was written to a free address stands there from then on.
pub fn written_nodes_stand()
    ensures { WrittenNodesStand }
{}
