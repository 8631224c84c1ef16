//! The pages of a file with their addresses, and which of its direct nodes are dirty.
//!
//! The layer above uses `Index`, which it sees as a map from page to address and the set of the dirty direct
//! nodes' offsets: `set` and `place` change one page, and `cut` takes the pages from one on. Its node offsets
//! are those that its pages need. The dirty ones stand in a list of their own with room for all, so that a node
//! becomes dirty without memory, and `dirty_nodes` looks at no clean one. The definitions stand in
//! `specs/Paged.antt`, over `f2_format`'s `specs/Offsets.antt`, and how the nodes are stored in `specs/Slots.antt`.
#![tactic(auto)]

mod index;
mod nodes;
mod table;

pub use index::Index;
