//! What packing and unpacking keep.

ghost use Rattle.f2_dentry_block.specs.Packed.{PackedNamesReadBack};

/// The names of a directory's blocks, taken block after block, are the names that were packed, and no block has
/// a fault.
pub fn packed_names_read_back()
    ensures { PackedNamesReadBack }
{}
