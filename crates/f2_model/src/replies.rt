//! What a volume answers.
ghost use Rattle.std.specs.Prelude.{◌≡◌};
ghost use Rattle.f2_model.specs.Step.{outcome_of};

use crate::lists::{Bytes, Items, Names};
use std::alloc::AllocError;

/// A zone of the image whose blocks a call may lack.
#[derive(Clone, Copy, Debug, PartialEq, Eq)]
pub enum Space {
    Node,
    Data,
}

/// Why an fsync makes a checkpoint in place of rolling forward.
#[derive(Clone, Copy, Debug, PartialEq, Eq)]
pub enum Reason {
    /// The path names a directory.
    NonRegular,
    /// A rename moved the file since the last checkpoint.
    Renamed,
    /// Its parent directory isn't in the last checkpoint.
    ParentNew,
    /// The last checkpoint or a later fsync binds its name to another ino.
    NameTaken,
    /// A truncate emptied the range of one of its direct nodes since the last checkpoint.
    Shrunk,
    /// A zone lacks room for what it has to write, or for what recovery may find.
    Room,
}

/// The reply to a call.
#[derive(Debug, Drop)]
pub enum Reply {
    /// The call took effect.
    Done,
    /// What a read found.
    Bytes(Bytes),
    /// What a list found.
    Names(Names),
    /// The fsync is durable by the node log.
    Roll,
    /// The fsync is durable by a checkpoint.
    Cp(Reason),
    /// The checkpoint is done.
    Synced,
    /// The volume isn't open.
    Closed,
    /// The history is full.
    Spent,
    /// Another call stands in the way; `by` is its seat.
    Busy { by: u8 },
    BadName,
    NoEnt,
    NotDir,
    IsDir,
    Exists,
    NotEmpty,
    TooBig,
    /// The tree after the call would need more than a zone grants.
    NoSpace { space: Space, need: u32, limit: u32 },
    ReadFault,
    WriteFault,
    /// Memory was refused; nothing changed.
    Memory,
}

impl Reply {
    /// The reply without its contents, as the history keeps it.
    pub fn outcome(&self) -> Outcome
        ensures { result ≡ outcome_of self.now }
    {
        match self {
            Reply::Done => Outcome::Done,
            Reply::Bytes(_) => Outcome::Bytes,
            Reply::Names(_) => Outcome::Names,
            Reply::Roll => Outcome::Roll,
            Reply::Cp(reason) => Outcome::Cp(*reason),
            Reply::Synced => Outcome::Synced,
            Reply::Closed => Outcome::Closed,
            Reply::Spent => Outcome::Spent,
            Reply::Busy { by } => Outcome::Busy { by: *by },
            Reply::BadName => Outcome::BadName,
            Reply::NoEnt => Outcome::NoEnt,
            Reply::NotDir => Outcome::NotDir,
            Reply::IsDir => Outcome::IsDir,
            Reply::Exists => Outcome::Exists,
            Reply::NotEmpty => Outcome::NotEmpty,
            Reply::TooBig => Outcome::TooBig,
            Reply::NoSpace { space, need, limit } => Outcome::NoSpace {
                space: *space,
                need: *need,
                limit: *limit,
            },
            Reply::ReadFault => Outcome::ReadFault,
            Reply::WriteFault => Outcome::WriteFault,
            Reply::Memory => Outcome::Memory,
        }
    }
}

impl From<AllocError> for Reply {
    ghost use Rattle.f2_model.specs.declared.replies.Reply.TheVariants.{Memory};

    ghost from_gives = { λ _ reply. reply ≡ Memory };

    fn from(_error: AllocError) -> Reply {
        Reply::Memory
    }
}

/// Replies in order.
pub type Replies = Items<Reply>;

/// A reply without the contents that the tree determines.
#[derive(Clone, Copy, Debug, PartialEq, Eq)]
pub enum Outcome {
    Done,
    Bytes,
    Names,
    Roll,
    Cp(Reason),
    Synced,
    Closed,
    Spent,
    Busy { by: u8 },
    BadName,
    NoEnt,
    NotDir,
    IsDir,
    Exists,
    NotEmpty,
    TooBig,
    NoSpace { space: Space, need: u32, limit: u32 },
    ReadFault,
    WriteFault,
    Memory,
}

/// What a call of several events goes on to do.
#[derive(Clone, Copy, Debug, PartialEq, Eq)]
pub enum Plan {
    /// An fsync by the node log.
    Roll,
    /// An fsync by a checkpoint.
    Cp(Reason),
    /// A checkpoint.
    Sync,
}

/// The answer to the beginning of a call.
#[derive(Debug, Drop)]
pub enum Begun {
    /// The call is over.
    Replied(Reply),
    /// The call is in flight.
    Going(Plan),
}

/// The answer to one event of a call in flight.
#[derive(Debug, Drop)]
pub enum Step {
    /// The seat has no call in flight.
    None,
    /// This page was written.
    Page(u32),
    /// A flush between data and node blocks was made.
    Flushed,
    /// The direct node with this offset was written.
    Node(u32),
    /// The marked inode was written.
    Mark,
    /// A checkpoint wrote a block, or made its first flush.
    Block,
    /// A checkpoint wrote its tail.
    Tail,
    /// This position of the node log was drawn.
    Slot(u32),
    /// The call waits for the node block at this position.
    Again(u32),
    /// The call is over.
    Replied(Reply),
}

/// The answer of the flusher.
#[derive(Clone, Copy, Debug, PartialEq, Eq)]
pub enum Tick {
    Data,
    Node,
    Idle,
    Room,
    Busy,
    Closed,
    Spent,
    WriteFault,
}
