//! Why an image isn't recovered.
ghost use Rattle.std.specs.Prelude.{◌≡◌};
ghost use Rattle.f2_recover.specs.declared.faults.MountFault.TheVariants.{Memory};

use std::alloc::{AllocError, AllocFailed};
use thiserror::Error;

/// A condition under which an image stands for no tree, with the number that is told of it.
#[derive(Clone, Copy, Debug, PartialEq, Eq, Error)]
pub enum BadImage {
    /// Neither copy of the superblock is right.
    #[error("badsuper 0")]
    BadSuper,
    /// Neither pack is valid.
    #[error("nocheckpoint 0")]
    NoCheckpoint,
    /// The newest version is the last one or past it.
    #[error("versionend {version}")]
    VersionEnd { version: u64 },
    /// The journal says that it has more entries than it can.
    #[error("journal {count}")]
    Journal { count: u16 },
    /// What the node address table and the nodes say of a nid doesn't go together.
    #[error("badnat {nid}")]
    BadNat { nid: u32 },
    /// An inode is none of ours.
    #[error("badinode {at}")]
    BadInode { at: u32 },
    /// A block of a directory has a wrong name in it.
    #[error("dentfault {at}")]
    DentFault { at: u32 },
    /// The node log goes on after a third of the node zone.
    #[error("chainlong {at}")]
    ChainLong { at: u32 },
    /// An address isn't in its zone.
    #[error("outofzone {at}")]
    OutOfZone { at: u32 },
    /// Two have one address.
    #[error("shared {at}")]
    Shared { at: u32 },
    /// The name that a mark brings is bound already.
    #[error("conflict {ino}")]
    Conflict { ino: u32 },
    /// The parent that a mark names is no directory of the base.
    #[error("noparent {ino}")]
    NoParent { ino: u32 },
    /// Base and marks are no good tree.
    #[error("badtree {ino}")]
    BadTree { ino: u32 },
    /// There are more nodes or blocks than the image grants.
    #[error("toofull {limit}")]
    TooFull { limit: u32 },
}

/// Why an image isn't recovered.
#[derive(Clone, Copy, Debug, PartialEq, Eq, Error)]
pub enum MountFault {
    /// The image stands for no tree.
    #[error("the image stands for no tree: {0}")]
    Bad(BadImage),
    /// A read of the disk failed.
    #[error("the image can't be read")]
    Read,
    /// Memory was refused.
    #[error("out of memory")]
    Memory,
}

impl From<AllocError> for MountFault {
    ghost from_gives = { λ _ fault. fault ≡ Memory };

    fn from(_error: AllocError) -> MountFault {
        MountFault::Memory
    }
}

impl<T: Drop> From<AllocFailed<T>> for MountFault {
    ghost from_gives = { λ _ fault. fault ≡ Memory };

    fn from(_error: AllocFailed<T>) -> MountFault {
        MountFault::Memory
    }
}
