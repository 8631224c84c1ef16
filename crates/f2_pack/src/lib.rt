//! The checkpoint packs of an image: a head, a summary and a tail on each of two sides.
//!
//! The layer above reads the pack of each side with [`read_pack`], which gives it where it is valid, and takes the
//! newest of the two with [`newest`]. A head is made with [`write_head`]: the same block, written as the head and as
//! the tail of a side, is a valid pack with the head's fields.
//!
//! What the bytes mean and when a pack is valid is defined in `f2_format`, in `specs/Pack.antt` and
//! `specs/Seal.antt`; a pack as a value, and which one is the newest, in this crate's `specs/Packs.antt`.
#![tactic(auto)]

mod choice;
mod heads;
mod packs;
mod reading;

pub use choice::{NoCheckpoint, newest};
pub use heads::{Head, write_head};
pub use packs::{Pack, Side};
pub use reading::read_pack;
