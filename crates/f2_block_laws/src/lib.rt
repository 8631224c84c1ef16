//! Laws about the blocks of a tree, in the words of `f2_stored`: which blocks are those of a tree at its places, and
//! which nodes these places have to tell.
//!
//! No program runs this crate. Each function has an empty body, and its contract is a law; the statements stand in
//! `specs/`, one file a topic.
#![tactic(auto)]

mod directories;
mod nodes;
mod whole;

pub use directories::packed_directories_stand;
pub use nodes::blocks_are_nodes;
pub use whole::all_nodes_are_named;
