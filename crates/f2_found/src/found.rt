//! A tree that was found.
use crate::names::FoundNames;
use crate::rows::FoundRows;

/// The tree of an image as it was found there.
#[derive(Drop)]
pub struct Found {
    pub rows: FoundRows,
    /// The names of its directories.
    pub names: FoundNames,
}
