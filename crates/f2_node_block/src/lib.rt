//! Inodes, and the nodes of addresses and nids below them, as F2FS has them.
//!
//! The layers above read an inode with [`read_inode`] and write one with [`write_inode`]: what was written is
//! read, and a block that is no inode is refused with the first thing that is wrong. A direct node has 1,018
//! addresses and an indirect node 1,018 nids: [`read_word`] and [`write_word`] are one of them. The footer of
//! a node, its last 24 bytes, is another crate's, and stays.
//!
//! The bytes are defined in `f2_format`, in `specs/Inode.antt`, and an inode as a value of the program in this
//! crate's `specs/Inodes.antt`.
#![tactic(auto)]

mod inodes;
mod parts;
mod words;

pub use inodes::{Inode, InodeFault, read_inode, write_inode};
pub use words::{read_word, write_word};
