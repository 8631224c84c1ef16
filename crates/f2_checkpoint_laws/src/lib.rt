//! The events of a checkpoint, each by the changes that it makes: the pages, the nodes and the other blocks that it
//! writes before its tail, its first flush, the tail, and the last flush, after which all that a running volume keeps
//! holds; and what the disk keeps where one of them fails.
//!
//! No program runs this crate. Each function has an empty body, and its contract is a law; the statements stand in
//! `specs/`, one file a topic.
#![tactic(auto)]

mod done;
mod ended;
mod faults;
mod going;
mod pending;
mod writing;

pub use done::last_flushes_keep;
pub use ended::{last_flushes_keep_whole, layouts_after_tell_numbers, tails_end_whole};
pub use faults::{
    failed_blocks_leave, failed_first_flushes_leave, failed_last_flushes_leave, failed_tails_leave,
};
pub use going::checkpoints_go_on;
pub use pending::{tails_make_pending, written_trees_are_pending};
pub use writing::{
    checkpoint_blocks_keep, checkpoint_flushes_keep, checkpoint_nodes_stand, checkpoint_pages_stand,
};
