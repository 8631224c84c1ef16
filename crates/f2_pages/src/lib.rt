//! The pages of files that a volume keeps in memory.
//!
//! Dirty pages, whose contents the disk doesn't have yet, stay until they are written. Clean pages, which were
//! read from the disk, stand in an `lru` cache, and the page that was used longest ago goes first. The kernel
//! keeps both in its page cache, in one `struct address_space` for each file; here one store has those of all
//! files, each page named by its file's ino and its number.
//!
//! What the layer above uses: contracts see a [`PageStore`] as a map of dirty and a map of clean contents. What
//! [`PageStore::read`] gives is a page's dirty content, else that of its block. [`PageStore::ready`] takes memory
//! for some dirty pages ahead, so that [`PageStore::put`] takes none and can't fail.
//!
//! The definitions stand in `specs/Kept.antt`.
#![tactic(auto)]

mod store;

pub use store::PageStore;
