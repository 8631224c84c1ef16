//! What changes of a disk keep of what stands on it: writes, flushes, positions that are drawn, the end of a checkpoint
//! and a loss of power, one at a time.
//!
//! No program runs this crate. Each function has an empty body, and its contract is a law; the statements stand in
//! `specs/`, one file a topic.
#![tactic(auto)]

mod checkpointing;
mod crashing;
mod drawing;
mod flushing;
mod forgetting;
mod writing;

pub use checkpointing::{flushed_tails_count, tails_may_be_written};
pub use crashing::crashes_keep;
pub use drawing::{marks_may_be_drawn, nodes_may_be_drawn};
pub use flushing::{flushes_keep, flushes_settle, settled_marks_may_be_acknowledged};
pub use forgetting::numbers_may_be_forgotten;
pub use writing::{free_writes_keep, submits_keep};
