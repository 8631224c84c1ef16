//! Addresses that a zone gives.
ghost use Rattle.f2_zone_laws.specs.Free.{FreeNodesAreFree, FreePagesAreFree, FreeNodesOfMounts, FreePagesOfMounts};

/// Between two checkpoints the least free address of the zone of node blocks is free on the disk, and no node and no
/// page of the live tree stands there. Were the next address of the node log not counted as in use, a checkpoint could
/// write there what the next fsync writes over.
pub fn free_nodes_are_free()
    ensures { FreeNodesAreFree }
{}

/// The least free address of the zone of data blocks is so too. Were the pages of marks not counted as in use, a write
/// could change what an fsync has acknowledged.
pub fn free_pages_are_free()
    ensures { FreePagesAreFree }
{}

/// While a mount is at work the least free address of the zone of node blocks is free. Were the node log that it found
/// not counted as in use, the mount's checkpoint could write over it before it counts itself, and a crash lose the marks.
pub fn free_nodes_of_mounts()
    ensures { FreeNodesOfMounts }
{}

/// The least free address of the zone of data blocks is so too. Were the pages of the base not counted as in use that
/// the marks replace, the mount's checkpoint could write over them, and a crash before its end find them changed.
pub fn free_pages_of_mounts()
    ensures { FreePagesOfMounts }
{}
