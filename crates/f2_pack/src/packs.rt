//! A pack as a value, and the two places where packs stand.

ghost use Rattle.std.specs.Prelude.{◌≡◌, ◌≤◌};
ghost use Rattle.f2_pack.specs.Packs.{pack_start};

use crate::heads::Head;
use f2_bytes::Block;

/// Where pack A begins: its head, its summary and its tail.
const START_A: u32 = 2;

/// Where pack B begins.
const START_B: u32 = 5;

/// One of the two places where a pack stands.
#[derive(Clone, Copy, Debug, PartialEq, Eq)]
pub enum Side {
    /// Blocks 2, 3 and 4.
    A,
    /// Blocks 5, 6 and 7.
    B,
}

impl Side {
    /// The address of the pack's head; its summary and its tail follow.
    pub(crate) fn start(self) -> u32
        ensures place { result ≡ pack_start self }
        ensures bound { result ≤ 5 }
    {
        match self {
            Side::A => START_A,
            Side::B => START_B,
        }
    }
}

/// A checkpoint pack.
#[derive(Debug, Drop)]
pub struct Pack {
    /// The fields of its head and of its tail.
    pub head: Head,
    /// The block of its summary, which holds the journal.
    pub summary: Block,
}
