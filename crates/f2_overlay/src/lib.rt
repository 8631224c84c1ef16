//! The node log over the base: what recovery takes of the log's blocks, and each file as its last mark has it.
//!
//! F2FS walks the log and puts the addresses of each file's blocks into the file up to its last mark (`do_recover_data` of
//! recovery.c). Here nothing is changed: [`roll_files`] gives each file that was marked as its last mark has it, beside the
//! base that `f2_recover` read; [`check_names`] looks at the names that new files bring, and [`check_nids`] at the nids and
//! the addresses of the log's blocks. Each says what is right of every image with that base and that log, or a condition that
//! stands in it.
//!
//! The definitions stand in `specs/`: which blocks count (`Lasts`), what is right of nids and addresses (`Nodes`) and how far
//! they were looked at (`Nids`), what is right of names (`Names`), and of the pages of marks (`Rolls`).
#![tactic(auto)]

mod addresses;
mod blocks;
mod brought;
mod ends;
mod holders;
mod lasts;
mod marks;
mod names;
mod nids;
mod owners;
mod pending;
mod putting;
mod rolls;
mod taking;

pub use addresses::Addresses;
pub use lasts::{LastMarks, last_marks};
pub use names::check_names;
pub use nids::check_nids;
pub use rolls::{Roll, Rolls, roll_files};
pub use taking::{NodeAt, RollNodes};
