//! The space that a new row takes.
ghost use Rattle.f2_laws.specs.Space.{InoLeavesSpace};

/// The number of a new row has no part in the space that it takes, so want of space can be told before
/// a number is drawn.
pub fn ino_leaves_space()
    ensures { InoLeavesSpace }
{}
