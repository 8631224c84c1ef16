//! What the lines of a script print and which events of the machine they make, and how a run ends.
//!
//! The definitions stand in `specs/`, one file a topic, in the words of `f2_model` and `f2_script` alone: `Parts` (what a
//! line comes to), `Calls` (the events of a seat's call), `Lines` (`PlaysLine`: each line with its text, its events and the
//! state after it), `Faults` (which calls of the disk may have failed), `Scripts` (`Prints`: what is printed of bytes by
//! the status), `Due` (`IsDue`: the status that bytes are due), `Endings` (the number and the last line of each status).
//! Each program that runs scripts has them in its contract.
#![tactic(auto)]

mod status;

pub use status::{Status, bad_image_head, bad_image_number, limit_head};
