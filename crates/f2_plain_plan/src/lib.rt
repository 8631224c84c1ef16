//! Which blocks a checkpoint writes, so that its tree is laid out plainly.
//!
//! [`plan`] chooses a place for each inode and each page of a tree, away from the places of the last checkpoint, and
//! gives the blocks that are to be written: the data blocks, the inodes, one copy of the whole node address table, the
//! summary and the head of a checkpoint pack. The tail of the pack is told apart, since it is written last. Nothing is
//! written here; only want of memory fails.
//!
//! What the blocks are is defined in `f2_laid`, in `specs/Planned.antt`; what the parts below agree on in this crate's
//! `specs/`.
#![tactic(auto)]

mod contents;
mod directories;
mod drafts;
mod inodes;
mod packs;
mod pages;
mod planning;
mod plans;
mod tables;
mod zones;

pub use planning::plan;
pub use plans::{Next, Plan};
