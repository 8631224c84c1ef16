//! What the slots of a node stand for.
ghost use Rattle.std.specs.Prelude.{◌<◌};
ghost use Rattle.f2_blocks.specs.Slots.{AreWithin, IsSlotsOf};
ghost use Rattle.f2_blocks.specs.Tree.{node_limit};

use f2_shape::{NODE_SLOTS, first_page};

/// The offset of the first indirect node (`NODE_IND1_BLOCK`).
pub const FIRST_INDIRECT: u32 = 3;

/// The offset of the second indirect node (`NODE_IND2_BLOCK`).
pub const SECOND_INDIRECT: u32 = 4 + NODE_SLOTS;

/// The offset of the double indirect node (`NODE_DIND_BLOCK`).
pub const DOUBLE_INDIRECT: u32 = 5 + 2 * NODE_SLOTS;

/// What the slots of a node below the inode stand for.
#[derive(Clone, Copy)]
pub enum Slots {
    /// Pages, from this one on.
    Pages(u32),
    /// Nodes: the offset of the first, and how far each is from the next.
    Nodes(u32, u32),
}

/// What the slots of the node at this offset stand for.
pub fn slots_of(offset: u32) -> Slots
    requires below { 0 < offset }
    requires limit { offset < node_limit }
    ensures slots { IsSlotsOf offset result }
    ensures within { AreWithin result }
{
    match first_page(offset) {
        Some(page) => Slots::Pages(page as u32),
        None if offset == DOUBLE_INDIRECT => Slots::Nodes(DOUBLE_INDIRECT + 1, NODE_SLOTS + 1),
        None => Slots::Nodes(offset + 1, 1),
    }
}
