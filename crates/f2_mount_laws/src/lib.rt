//! What a mount takes over of an image: where the tree that it goes on with stands, and that a checkpoint of it may be
//! written.
//!
//! No program runs this crate. A mount reads an image's base and the marks of its node log, and goes on with the tree
//! that they make. `specs/Taken` says at which places that tree stands, in one record, `IsTakenOver`: a marked file by
//! its last mark and the direct nodes before it, every other row as the base has it, and which nodes and pages have
//! still to be written. Each function below has an empty body, and its contract is a law about that; the statements
//! stand in `specs/`.
#![tactic(auto)]

mod ending;
mod existing;
mod living;
mod writing;

pub use ending::mounts_end_whole;
pub use existing::trees_are_taken_over;
pub use living::{rolled_trees_of_mounts_are_proper, taken_over_trees_are_live};
pub use writing::{free_addresses_are_elsewhere, taken_over_trees_may_be_written};
