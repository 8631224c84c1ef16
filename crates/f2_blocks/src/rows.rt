//! A file as its inode shows it.
use f2_model::{Kind, Name};

/// What the inode of a file says beside where its pages and nodes stand.
#[derive(Clone, Copy)]
pub struct NodeRow<'a> {
    /// Whether the file is a directory.
    pub kind: Kind,
    /// The length of the file in bytes.
    pub size: u64,
    /// The ino of the directory that the file stands in; the root's is its own.
    pub pino: u32,
    /// The file's name there, at most 255 bytes; the root's is empty.
    pub name: &'a Name,
    /// How many blocks the file has: its nodes, its inode included, and its pages (`i_blocks`).
    pub blocks: u64,
}
