//! Files in the root alone, as a tree in memory that a volume changes in place.
//!
//! A call costs what it touches: names are looked up in a map, a write changes the pages that it reaches, and of the
//! space that a tree takes counts are kept. [`Files::of`] takes a whole tree and costs as much as it has; only where a
//! tree comes near the end of its room are its dentry blocks counted anew.
//!
//! What the layer above uses: contracts see [`Files`] as the tree alone. Whatever is taken is flat, by `IsFlat`, and stays
//! so; [`Files::create`] and [`Files::write`] come to what the definitions of calls say, and leave the tree as it was where
//! they refuse. Want of memory is one refusal more, [`Reply::Memory`](f2_model::Reply::Memory).
//!
//! `specs/Flat` says which trees these are, `specs/Calls` what the calls come to, `specs/Kept` what is kept beside a tree,
//! and `specs/Steps` what the steps of a call come to.
#![tactic(auto)]

mod counts;
mod creates;
mod files;
mod rooms;
mod rows;
mod takes;
mod walks;
mod writes;

pub use files::Files;
