//! Whether a tree can be stored.
//!
//! An image that is laid out plainly keeps a tree without index nodes, so not every good tree has room in it.
//! [`is_storable`] tells exactly whether one has, by `IsStorable` of `f2_laid`: the tree is good, each row has a number
//! that the node address table has, a third of each zone has space for all of it, and an inode has room for each
//! file's pages and each directory's dentry blocks. [`names_take_few_blocks`] bounds the dentry blocks of a directory
//! by the number of its names.
//!
//! Each part of that is tested by itself, and `specs/Parts` says what each part is; `specs/Blocks` has the bound.
#![tactic(auto)]

mod blocks;
mod good;
mod names;
mod pages;
mod room;
mod rows;
mod storable;

pub use blocks::names_take_few_blocks;
pub use storable::is_storable;
