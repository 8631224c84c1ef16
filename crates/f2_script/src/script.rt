//! The lines of a script.
ghost use Rattle.std.specs.Prelude.{◌≡◌};
ghost use Rattle.f2_script.specs.declared.script.ScriptFault.TheVariants.{Memory};

use f2_model::{CallKind, Items, Request};
use std::alloc::{AllocError, AllocFailed};
use thiserror::Error;

/// Which lines a script may have. Each begins with `mkfs`.
#[derive(Clone, Copy, Debug, PartialEq, Eq)]
pub enum Grammar {
    /// Every line.
    Whole,
    /// The lines that the command `replay` takes so far: creates, writes, syncs, crashes, mounts and trees.
    Replay,
    /// The lines of the plain machine, which has no disk: it plans no failure, and a crash picks either all that
    /// was written or as little as it may.
    Plain,
}

/// One line of a script.
#[derive(Debug, Drop)]
pub enum Line {
    /// An empty line, or one that begins with `#`.
    Skipped,
    /// Makes an image of that many blocks, with that many node address blocks in a copy, and mounts it.
    Mkfs { blocks: u32, nat: u32 },
    /// A call by a seat, 1 to 8, run to its reply.
    Call { seat: u8, request: Request },
    /// The beginning of an fsync or a sync by a seat, 1 to 8, which stays in flight.
    Begin { seat: u8, request: Request },
    /// The next events of a seat's call in flight, up to one that does more than draw a position of the node log.
    Go { seat: u8 },
    /// The next event of a seat's call in flight, where that draws a position of the node log.
    Slot { seat: u8 },
    /// The rest of a seat's call in flight, up to one that has to wait.
    End { seat: u8 },
    /// One step of the flusher.
    Tick,
    /// A crash; the number tells which image it leaves.
    Crash { pick: u64 },
    /// The device call of a kind that fails, counted from now on and from 1.
    Fail { kind: CallKind, n: u32 },
    /// The number of device calls after which all fail.
    Stop { n: u32 },
    /// A mount of the image.
    Mount,
    /// A checkpoint, after which the volume is closed.
    Unmount,
    /// Prints the tree.
    Tree,
    /// Makes up to 50,000 calls that a generator gives from its start on.
    Gen { start: u64, count: u32 },
}

/// The lines of a script in order.
pub type Lines = Items<Line>;

/// Why bytes are no script.
#[derive(Debug, Drop, Error)]
pub enum ScriptFault {
    /// The first line, counted from 1, that isn't in the grammar at its place.
    #[error("script line {line}")]
    Line { line: u32 },
    /// More than 1,048,576 bytes or 65,536 lines.
    #[error("toolong")]
    TooLong,
    /// Memory was refused.
    #[error("out of memory")]
    Memory,
}

impl From<AllocError> for ScriptFault {
    ghost from_gives = { λ _ fault. fault ≡ Memory };

    fn from(_error: AllocError) -> ScriptFault {
        ScriptFault::Memory
    }
}

impl<T: Drop> From<AllocFailed<T>> for ScriptFault {
    ghost from_gives = { λ _ fault. fault ≡ Memory };

    fn from(_error: AllocFailed<T>) -> ScriptFault {
        ScriptFault::Memory
    }
}
