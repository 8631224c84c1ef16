//! Files as they were made durable.
use f2_model::Row;

/// A file as it was when an fsync of it wrote its marked inode.
#[derive(Debug, Drop)]
pub struct Mark {
    pub ino: u32,
    pub row: Row,
}
