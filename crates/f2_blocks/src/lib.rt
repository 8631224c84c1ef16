//! The blocks of a file's nodes, as F2FS has them.
//!
//! The layer above makes any node of a file with [`node`], from what the file's inode says ([`NodeRow`]), where its
//! pages are ([`PageAddresses`], which `f2_index`'s `Index` has) and the nids of its nodes ([`Nids`]): the block has then the bytes of that node
//! up to its footer, which stays, and reads back as that node. [`routes_end_at_addresses`] says what all of them
//! come to: in an image with these blocks the way of each page, from the inode down, ends at the page's address.
//!
//! The definitions stand in `specs/`: `Tree` (what a node's slots stand for), `Blocks` (its words and bytes) and
//! `Routes` (the ways through an image), over `f2_format`'s `Inode` and `Offsets` and `f2_image`'s `Nodes`.
#![tactic(auto)]

mod addresses;
mod blocks;
mod laws;
mod nids;
mod present;
mod rows;
mod tree;

pub use addresses::PageAddresses;
pub use blocks::node;
pub use laws::{footers_change_no_reading, routes_end_at_addresses};
pub use nids::Nids;
pub use rows::NodeRow;
