//! An image that is laid out plainly: every node of its tree is an inode, its node log and its journal are empty, and
//! one copy of the whole node address table counts.
//!
//! The core writes its images so until its files have index trees: a checkpoint writes the tree anew into blocks that
//! the last one doesn't have. [`Places`] says where the files of a tree stand, [`Stored`] what a checkpoint tells of
//! its image beside, and [`Planned`] is a block that is to be written.
//!
//! `specs/Laid` says what such an image is, `specs/Planned` which blocks make one of a tree, `specs/Laws` what it stands
//! for.
#![tactic(auto)]

mod places;
mod planned;
mod stored;

pub use places::{Place, Places};
pub use planned::Planned;
pub use stored::Stored;
