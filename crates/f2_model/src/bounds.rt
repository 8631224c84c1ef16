//! What an image grants a tree.

/// The numbers that calls on a volume are measured against.
#[derive(Clone, Copy, Debug, PartialEq, Eq)]
pub struct Limits {
    /// Live nodes; also node blocks in the node log between two checkpoints.
    pub nodes: u32,
    /// Live data blocks; also data blocks written between two checkpoints.
    pub data_blocks: u32,
    /// Each number of a node is below this.
    pub nids: u32,
    /// Bytes of a file.
    pub size: u64,
}
