//! Laws that tie the free blocks of a zone to what a running volume keeps on its disk.
//!
//! No program runs this crate. How a zone keeps count of its blocks is told in `f2_space`, and what a volume keeps on
//! its disk in `f2_stored`. Each function below has an empty body, and its contract is a law about the two; the
//! statements stand in `specs/`, one file a topic: `Covering` (what a zone counts as in use), `Keeping` (what it keeps
//! of the last checkpoint, and what a mount finds in it), `Free`, `Kept` and `Owned`.
//!
//! - A zone whose used addresses have all that stands in it gives free ones alone: at the address that a call of
//!   `f2_space` takes or draws, a write keeps what the volume keeps, and no node and no page of the live tree stands
//!   there. So it is between two checkpoints, and while a mount is at work.
//! - `Zone::reserve`, `Zone::take_log` and `Zone::draw` ask that no more than a third of the zone be kept. So it is
//!   where what is kept are addresses of the base.
//! - `Zone::adopt` asks that fewer than two thirds be kept. So it is as long as what is adopted, with the address at
//!   hand, is of the base, the node log or the marks that a mount found.
//! - What base and marks own of the zone of data blocks fits two thirds, with the pages of one file more.
#![tactic(auto)]

mod free;
mod kept;
mod owned;

pub use free::{
    free_nodes_are_free, free_nodes_of_mounts, free_pages_are_free, free_pages_of_mounts,
};
pub use kept::{found_nodes_fit, found_pages_fit, kept_nodes_fit, kept_pages_fit};
pub use owned::owners_fit;
