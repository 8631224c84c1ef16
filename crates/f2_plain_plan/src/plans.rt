//! What the next checkpoint is to be, and its blocks.

use f2_disk::Block;
use f2_laid::{Planned, Stored};
use f2_layout::Geometry;
use f2_pack::Side;

/// What the next checkpoint is to be.
#[derive(Clone, Copy, Debug, PartialEq, Eq)]
pub struct Next {
    /// The sizes of the image.
    pub geometry: Geometry,
    /// The side of its pack.
    pub side: Side,
    /// The version of its pack: at least 1.
    pub version: u64,
    /// Whether it writes the second copy of each block of the node address table.
    pub second: bool,
}

/// The blocks of a checkpoint.
#[derive(Debug, Drop)]
pub struct Plan {
    /// All blocks but the tail of its pack, in the order in which they are written: data blocks, inodes, the node
    /// address table, the summary and the head of the pack.
    pub blocks: Vec<Planned>,
    /// The tail of its pack: the bytes of the head again.
    pub tail: Block,
    /// What it tells.
    pub stored: Stored,
}
