//! How much of its image a tree takes that was found there, and whether it fits.
//!
//! The layer above calls [`check_room`]: a tree with its marks may take a third of the node zone and a third of the data zone,
//! so that a checkpoint always finds room for it besides the last one and the node log. [`size_of_tree`] counts what it takes.
//!
//! The definitions stand in `specs/Sizes.antt`, and what each row takes in `specs/Parts.antt`; how rows are counted is
//! `f2_model`'s `specs/Count.antt`.
#![tactic(auto)]

mod directories;
mod first_pages;
mod room;
mod rows;
mod sizes;

pub use room::check_room;
pub use sizes::{TreeSize, size_of_tree};
