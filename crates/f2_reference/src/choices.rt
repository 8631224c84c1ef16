//! What a machine is told to choose.

/// How many marks a mount takes of those that may remain.
#[derive(Clone, Copy, Debug, PartialEq, Eq)]
pub enum MarksKept {
    /// Those up to the last acknowledged one.
    Fewest,
    /// Those up to a place, as far as they are there, and all that are acknowledged.
    UpTo(usize),
}

/// What to do where the abstract machine may choose.
#[derive(Clone, Copy, Debug, PartialEq, Eq)]
pub struct Choices {
    /// For a mount: how many marks it takes.
    pub marks: MarksKept,
    /// For a mount: whether the tree of a checkpoint counts whose tail was written.
    pub pending: bool,
    /// For an event that begins a checkpoint: how many blocks this writes before its tail.
    pub blocks: u32,
}
