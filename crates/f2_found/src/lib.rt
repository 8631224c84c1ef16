//! The tree of an image as it was found: each row with the addresses of its pages, and the names of each directory.
//!
//! [`put_together`] makes it of a base that `f2_recover` read and of the marked files that `f2_overlay` rolled forward; what
//! the layer above uses is its clause: what it gives is the tree that the image stands for. A tree takes memory for its rows,
//! names and addresses; what pages hold stays in the image.
//!
//! The definitions stand in `specs/`: the addresses of pages (`Pages`), that they stand within an image (`Places`), what a tree is
//! found as (`Found`), the rows up to an ino (`Made`), and the names up to an ino (`Named`).
#![tactic(auto)]

mod building;
mod copying;
mod found;
mod making;
mod names;
mod naming;
mod nids;
mod pages;
mod rows;

pub use building::put_together;
pub use found::Found;
pub use names::FoundNames;
pub use pages::FoundPages;
pub use rows::{FoundRow, FoundRows};
