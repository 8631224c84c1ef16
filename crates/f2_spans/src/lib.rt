//! Where the pieces of a write lie: the pages that they reach, and how far they raise a file's size.
//!
//! [`pages_of_pieces`] gives the pages as `pages_of_piece` of `f2_model` does, piece by piece; no piece may end past the
//! last byte that a file's pages have room for (`EndWithin` of `specs/Spans`).
#![tactic(auto)]

mod pieces;

pub use pieces::{PAGE, pages_of_piece, pages_of_pieces, raised_size};
