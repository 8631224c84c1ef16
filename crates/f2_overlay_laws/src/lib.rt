//! Laws of a base and a node log that were read (`f2_recover`, `f2_scan`, `f2_overlay`): an image in which all is right that
//! was looked at is sound, its tree has the last mark of each file over the base, and rolls tell the nodes that recovery takes.
//!
//! No program runs this crate: each function has an empty body, and its contract is a law. The statements stand in
//! `specs/Sound.antt`, `specs/Rolled.antt` and `specs/Taken.antt`.
#![tactic(auto)]

mod rolled;
mod sound;
mod taken;

pub use rolled::{marks_are_marked_places, rolled_rows_are_alike, trees_are_there};
pub use sound::all_right_is_sound;
pub use taken::rolled_nodes_are_taken;
