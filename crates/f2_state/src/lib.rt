//! A running volume: its disk with what it has in memory, as a machine that takes one event at a time.
//!
//! What the layer above uses: contracts see a [`Volume`] as a record (`Seen` of `specs/Seen`), and say of each event that
//! from every state of the abstract machine in which the volume stood on its disk (`StandsOn` of `specs/Standing`) it was a
//! step of the machine, after which the volume stands in the next state (`Follows` of `specs/Following`). Each volume stands in some
//! state, on what its disk tells, or on some contents where the disk doesn't tell; and no read reaches past the image.
//!
//! [`Volume::look`] takes the calls that change nothing, `read` and `list`. A read of the disk is made only where a page
//! is neither dirty nor kept; it fails as a whole where one fails.
//!
//! [`Volume::go_idle`] takes the events of a seat's call that ask nothing of the disk, and tells where the next one does;
//! [`Volume::flush_pages`] and [`Volume::acknowledge`] are the two flushes of an fsync.
//!
//! `specs/Contents` says what the pages in memory have to do with files and disk, `specs/Placed` where pages stand,
//! `specs/Barred` what keeps a call from taking effect, and `specs/Looks` what a call that changes nothing may do.
#![tactic(auto)]

mod barring;
mod entries;
mod flushes;
mod idling;
mod listing;
mod looks;
mod pages;
mod reading;
mod volume;

pub use volume::Volume;
