//! Laws of what a volume keeps on its disk: each image that a crash may leave of a disk on which a state is kept
//! stands for what may remain of the state, and a mount's flush makes a disk on which the mount's state is kept.
//!
//! No program runs this crate. Each function has an empty body, and its contract is a law; the statements stand in
//! `specs/`, one file a topic.
#![tactic(auto)]

mod mounting;
mod safety;

pub use mounting::mounts_find;
pub use safety::{changes_in_memory_keep, stored_disks_are_safe};
