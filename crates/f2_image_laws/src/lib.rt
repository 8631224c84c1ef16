//! Laws about images, in the words of `f2_image`: which chain a disk's images have, that each row of a base has its
//! name in a dentry, on which blocks what an image stands for depends, that its tree is good and fits it, and that its
//! marks go with its base and with each other, in it and in every run from it.
//!
//! No program runs this crate. Each function has an empty body, and its contract is a law that holds of every image;
//! the statements stand in `specs/`, one file a topic.
#![tactic(auto)]

mod chained;
mod depending;
mod fitting;
mod named;
mod reading;
mod rolled;

pub use chained::chains_of_disks;
pub use depending::same_blocks_same_meaning;
pub use fitting::sound_marks_fit;
pub use named::names_are_dentries;
pub use reading::images_read_alike;
pub use rolled::rolled_trees_are_proper;
