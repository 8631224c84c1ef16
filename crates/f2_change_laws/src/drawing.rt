//! Positions of the node log that are drawn.
ghost use Rattle.f2_change_laws.specs.Drawing.{NodesMayBeDrawn, MarksMayBeDrawn};

/// The next position may be drawn for a block with no mark: the state stays.
pub fn nodes_may_be_drawn()
    ensures { NodesMayBeDrawn }
{}

/// The next position may be drawn for a marked inode: its row joins the marks, and its pages have their owner.
pub fn marks_may_be_drawn()
    ensures { MarksMayBeDrawn }
{}
