//! Blocks that are to be written.
use f2_disk::Block;

/// A block that is to be written, and its address.
#[derive(Debug, Drop)]
pub struct Planned {
    pub at: u32,
    pub block: Block,
}
