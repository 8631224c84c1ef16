//! Why recovery takes nothing of a node log.

ghost use Rattle.std.specs.Prelude.{◌≡◌};
ghost use Rattle.f2_scan.specs.declared.faults.ScanFault.TheVariants.{Read, Memory};

use f2_disk::DiskFault;
use f2_node_block::InodeFault;
use std::alloc::{AllocError, AllocFailed};
use thiserror::Error;

/// Why recovery takes nothing of a node log.
#[derive(Clone, Copy, Debug, PartialEq, Eq, Error)]
pub enum ScanFault {
    /// A read of the disk failed.
    #[error("a block of the node log can't be read")]
    Read,
    /// The chain has more blocks than a third of the node zone; `at` is the address of the first one too many.
    #[error("the node log goes on at {at} after a third of the node zone")]
    ChainLong { at: u32 },
    /// The block at this address is a marked one of the chain, and as an inode wrong.
    #[error("a marked block of the node log, at {at}: {why}")]
    BadInode { at: u32, why: InodeFault },
    /// A block of the chain names this address, which isn't 0 and not in the node zone.
    #[error("a block of the node log names {at}, which is out of the node zone")]
    OutOfZone { at: u32 },
    /// Memory was refused.
    #[error("out of memory")]
    Memory,
}

impl From<DiskFault> for ScanFault {
    ghost from_gives = { λ _ fault. fault ≡ Read };

    fn from(_fault: DiskFault) -> ScanFault {
        ScanFault::Read
    }
}

impl From<AllocError> for ScanFault {
    ghost from_gives = { λ _ fault. fault ≡ Memory };

    fn from(_error: AllocError) -> ScanFault {
        ScanFault::Memory
    }
}

impl<T: Drop> From<AllocFailed<T>> for ScanFault {
    ghost from_gives = { λ _ fault. fault ≡ Memory };

    fn from(_error: AllocFailed<T>) -> ScanFault {
        ScanFault::Memory
    }
}
