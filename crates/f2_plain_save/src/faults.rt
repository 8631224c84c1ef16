//! Why a tree couldn't be saved.
ghost use Rattle.std.specs.Prelude.{◌≡◌};

use f2_disk::DiskFault;
use std::alloc::AllocError;
use thiserror::Error;

/// Why a tree couldn't be saved, or an image be made.
#[derive(Clone, Copy, Debug, PartialEq, Eq, Error)]
pub enum SaveFault {
    /// A write or a flush of the disk failed.
    #[error("the disk can't be written")]
    Write,
    /// Memory was refused.
    #[error("out of memory")]
    Memory,
}

impl From<DiskFault> for SaveFault {
    ghost use Rattle.f2_plain_save.specs.declared.faults.SaveFault.TheVariants.{Write};

    ghost from_gives = { λ _ fault. fault ≡ Write };

    fn from(_fault: DiskFault) -> SaveFault {
        SaveFault::Write
    }
}

impl From<AllocError> for SaveFault {
    ghost use Rattle.f2_plain_save.specs.declared.faults.SaveFault.TheVariants.{Memory};

    ghost from_gives = { λ _ fault. fault ≡ Memory };

    fn from(_error: AllocError) -> SaveFault {
        SaveFault::Memory
    }
}
