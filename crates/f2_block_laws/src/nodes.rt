//! The blocks of nodes.
ghost use Rattle.f2_block_laws.specs.Nodes.{NodesAreTheirBlocks, InodesAreRows};

/// A block that reads as a node of a file, with the footer of that node, is the block of the node at its places, where
/// the file's pages and nids are those of the places. Where it is an inode, made from what a row tells, it is the inode
/// of that row.
pub fn blocks_are_nodes()
    ensures nodes { NodesAreTheirBlocks }
    ensures inodes { InodesAreRows }
{}
