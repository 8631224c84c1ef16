//! Laws of the live tree of a running volume.
//!
//! No program runs this crate. What it is for the live tree to stand on the disk is told in `f2_stored`, in
//! `specs/Trees`, and what the node log tells of it in `specs/Ties`. Each function below has an empty body, and its
//! contract is a law about that; the statements stand in `specs/`.
#![tactic(auto)]

mod changing;
mod marking;
mod telling;

pub use changing::changes_in_memory_keep_live;
pub use marking::live_files_give_marks;
pub use telling::{checkpoints_tell_all, drawn_nodes_are_told, marks_tell_no_nodes};
