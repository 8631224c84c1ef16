//! The blocks of directories.
ghost use Rattle.f2_block_laws.specs.Directories.{PackedPagesHaveNames, PackedBlocksArePages, PackedBlocksAreCounted};

/// Where a directory of a good tree is packed into blocks, the pages with the dentries of these blocks have the names
/// of the directory's rows, each once; each packed block is the block of its page; and there are as many as the tree
/// counts for the directory. The inos of the tree have to fit into dentries.
pub fn packed_directories_stand()
    ensures names { PackedPagesHaveNames }
    ensures blocks { PackedBlocksArePages }
    ensures counted { PackedBlocksAreCounted }
{}
