//! The events of an fsync and of the flusher, each by the changes that it makes.
//!
//! No program runs this crate. What a running volume keeps is told in `f2_stored`, in `specs/Kept`, and all of it with
//! what calls need in `specs/Whole`. Each function below has an empty body, and its contract is a law: that one event
//! keeps the first (`drawn_nodes_keep`) or all of it (`drawn_nodes_keep_whole`), or what the disk keeps where the event's
//! write fails (`failed_slots_leave`). The statements stand in `specs/`; the layer above uses those of all that is kept.
#![tactic(auto)]

mod acks;
mod begins;
mod faults;
mod flusher;
mod marks;
mod nodes;
mod pages;

pub use acks::{acknowledgements_keep, acknowledgements_keep_whole};
pub use begins::{
    begun_checks_count_for_nothing, begun_fsyncs_keep, entries_count_for_nothing,
    rest_counts_for_nothing,
};
pub use faults::{
    failed_flushed_nodes_leave, failed_flushes_leave, failed_pages_leave, failed_slots_leave,
};
pub use flusher::flushed_nodes_keep;
pub use marks::{drawn_marks_keep, drawn_marks_keep_whole, owners_may_join};
pub use nodes::{
    drawn_nodes_keep, drawn_nodes_keep_whole, submitted_slots_keep, submitted_slots_keep_whole,
};
pub use pages::{
    flushed_pages_keep, flushed_pages_keep_whole, written_pages_keep, written_pages_keep_whole,
};
