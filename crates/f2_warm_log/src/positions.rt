//! The positions of the log.

ghost use Rattle.std.specs.Prelude.{◌≤◌, ◌^◌, ◌<◌, length};
ghost use Rattle.f2_warm_log.specs.Gaps.{IsLowestOpen};
ghost use Rattle.f2_warm_log.specs.Log.{IsSubmittedBelow};

/// A position of the log, as contracts see it.
#[derive(Clone, Copy, Debug, PartialEq, Eq)]
pub struct Position {
    /// The address of its block.
    pub at: u32,
    /// The address of the next position's block, or 0 where the log's third of the zone ends with this one.
    pub next: u32,
    /// Whether its block was handed to the disk.
    pub submitted: bool,
}

/// A position that was reserved and waits for its block.
#[derive(Clone, Copy, Debug, PartialEq, Eq)]
pub struct Slot {
    /// The address of its block.
    pub at: u32,
    /// The address that the block's footer names as the next one, or 0 where none follows.
    pub next: u32,
    /// Its place in the chain: the first position is 0.
    pub position: u32,
}

/// The least position from `from` on that isn't submitted, or the number of positions where there is none.
pub(crate) fn lowest_open(positions: &[Position], from: u32) -> u32
    requires below { IsSubmittedBelow positions.now from }
    requires few { length positions.now < 2 ^ 32 }
    ensures { IsLowestOpen positions.now result }
{
    let mut gap = from;
    while (gap as usize) < positions.len() && positions[gap as usize].submitted {
        gap += 1;
    }
    gap
}
