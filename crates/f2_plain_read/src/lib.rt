//! Reading the tree of an image that is laid out plainly, from the blocks of its disk and from nothing else.
//!
//! The layer above calls [`read`] at a mount: where a tree is laid out in the image, it gives that tree, and what its
//! checkpoint tells. No tree that is laid out is refused, and nothing is written. What is found can be stored again by
//! the next checkpoint, whatever the disk gave.
//!
//! What an image that is laid out plainly is stands in `specs/Laid` of `f2_laid`; what `read` promises in this crate's
//! `specs/Reads`. The other definitions serve the functions inside, which take the image apart step by step: the
//! superblock and the packs (`Points`), the table, an inode and its pages (`Files`), the names of a directory
//! (`Bindings`), the tree of them (`Building`), and whether files stand apart (`Keeping`).
#![tactic(auto)]

mod blocks;
mod built;
mod ckpt;
mod dentries;
mod faults;
mod files;
mod kept;
mod names;
mod reading;
mod table;

pub use faults::ReadFault;
pub use reading::{Found, read};
