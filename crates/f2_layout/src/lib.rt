//! The layout of an image: where its parts stand, and the superblock that tells it.
//!
//! The layers above make a [`Geometry`] of two numbers, by [`Geometry::new`] or from a superblock by
//! [`read_super`], and ask it where a zone begins, whether an address is in a zone, and where a block of the
//! node address table stands. A geometry breaks no limit, and two geometries of the same numbers are equal.
//!
//! The definitions stand in `f2_format`, in `specs/Geometry.antt` and `specs/Superblock.antt`; the order of the
//! limits in this crate's `specs/Refusal.antt`.
#![tactic(auto)]

mod geometry;
mod superblock;

pub use geometry::{BadGeometry, Geometry, Limit};
pub use superblock::{BadSuper, read_super, write_super};
