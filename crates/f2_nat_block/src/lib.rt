//! A block of the node address table, and the bitmap that says which of its two copies counts.
//!
//! The layers above read an entry of a block with [`entry`] and change one with [`set`], which leaves every
//! other entry as it was; [`Bitmap`] has one bit for each block that a table may have, and [`Bitmap::flip`]
//! changes one of them alone.
//!
//! The definitions stand in `f2_format`, in `specs/Nat.antt`; an entry as a value in this crate's
//! `specs/NatEntry.antt`.
#![tactic(auto)]

mod bitmap;
mod entries;

pub use bitmap::Bitmap;
pub use entries::{NatEntry, entry, locate, set};
