//! Rows of the tree.
use crate::lists::Name;
use crate::page_maps::Pages;

/// What a row is.
#[derive(Clone, Copy, Debug, PartialEq, Eq)]
pub enum Kind {
    Regular,
    Directory,
}

/// A file or a directory.
#[derive(Debug, Drop)]
pub struct Row {
    /// Its number; the root's is 3.
    pub ino: u32,
    pub kind: Kind,
    /// The ino of its directory; the root is its own parent.
    pub parent: u32,
    /// Its name there; the root's is empty.
    pub name: Name,
    /// Its length in bytes; 0 for a directory.
    pub size: u64,
    /// The pages that a write touched and no truncate took away; one that isn't there reads as zeros.
    pub pages: Pages,
}
