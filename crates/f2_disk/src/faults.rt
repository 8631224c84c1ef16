//! Why a read of what a disk holds gave nothing.
ghost use Rattle.std.specs.Prelude.{◌≡◌};

use crate::DiskFault;
use std::alloc::{AllocError, AllocFailed};
use thiserror::Error;

/// Why something couldn't be read from a disk.
#[derive(Clone, Copy, Debug, PartialEq, Eq, Error)]
pub enum ReadFault {
    /// A read of the disk failed.
    #[error("the disk couldn't be read")]
    Read,
    /// Memory was refused.
    #[error("out of memory")]
    Memory,
}

impl From<DiskFault> for ReadFault {
    ghost use Rattle.f2_disk.specs.declared.faults.ReadFault.TheVariants.{Read};

    ghost from_gives = { λ _ fault. fault ≡ Read };

    fn from(_fault: DiskFault) -> ReadFault {
        ReadFault::Read
    }
}

impl From<AllocError> for ReadFault {
    ghost use Rattle.f2_disk.specs.declared.faults.ReadFault.TheVariants.{Memory};

    ghost from_gives = { λ _ fault. fault ≡ Memory };

    fn from(_error: AllocError) -> ReadFault {
        ReadFault::Memory
    }
}

impl<T: Drop> From<AllocFailed<T>> for ReadFault {
    ghost use Rattle.f2_disk.specs.declared.faults.ReadFault.TheVariants.{Memory};

    ghost from_gives = { λ _ fault. fault ≡ Memory };

    fn from(_error: AllocFailed<T>) -> ReadFault {
        ReadFault::Memory
    }
}
