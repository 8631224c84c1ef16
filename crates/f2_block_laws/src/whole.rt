//! The nodes of whole trees.
ghost use Rattle.f2_block_laws.specs.Whole.{NodesAreNamedAbove, InodesAreThere, DirectNodesAreThere, NodesAreNeeded, NodesAreCounted, WholeTreesAreCounted};

/// Where the places tell of a file just the nodes that its pages need, each of them but the inode is named above by one
/// of them, the inode and each page's direct node are among them, no file of which this holds has fewer, and they are
/// as many as such a file has. Where they tell so of each row of a tree, and its pages, these are as many as the tree's
/// nodes and data blocks.
pub fn all_nodes_are_named()
    ensures named { NodesAreNamedAbove }
    ensures inodes { InodesAreThere }
    ensures direct { DirectNodesAreThere }
    ensures needed { NodesAreNeeded }
    ensures counted { NodesAreCounted }
    ensures whole { WholeTreesAreCounted }
{}
