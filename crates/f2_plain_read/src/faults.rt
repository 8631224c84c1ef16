//! Why no tree was read.
ghost use Rattle.std.specs.Prelude.{◌≡◌};
ghost use Rattle.f2_plain_read.specs.Faults.{fault_of, unbuilt};

use std::alloc::{AllocError, AllocFailed};
use thiserror::Error;

/// Why no tree was read.
#[derive(Clone, Copy, Debug, PartialEq, Eq, Error)]
pub enum ReadFault {
    /// A read of the disk failed.
    #[error("the image can't be read")]
    Read,
    /// No tree is laid out plainly in the image.
    #[error("no tree is laid out in the image")]
    Bad,
    /// Memory was refused.
    #[error("out of memory")]
    Memory,
}

impl From<AllocError> for ReadFault {
    ghost use Rattle.f2_plain_read.specs.declared.faults.ReadFault.TheVariants.{Memory};

    ghost from_gives = { λ _ fault. fault ≡ Memory };

    fn from(_error: AllocError) -> ReadFault {
        ReadFault::Memory
    }
}

impl<T: Drop> From<AllocFailed<T>> for ReadFault {
    ghost use Rattle.f2_plain_read.specs.declared.faults.ReadFault.TheVariants.{Memory};

    ghost from_gives = { λ _ fault. fault ≡ Memory };

    fn from(_error: AllocFailed<T>) -> ReadFault {
        ReadFault::Memory
    }
}

impl From<f2_disk::ReadFault> for ReadFault {
    ghost from_gives = { λ error fault. fault ≡ fault_of error };

    fn from(error: f2_disk::ReadFault) -> ReadFault {
        match error {
            f2_disk::ReadFault::Read => ReadFault::Read,
            f2_disk::ReadFault::Memory => ReadFault::Memory,
        }
    }
}

/// Why what was read makes no tree.
#[derive(Clone, Copy, Debug, PartialEq, Eq, Error)]
pub(crate) enum BuildFault {
    /// No tree is laid out plainly in it.
    #[error("no tree is laid out in the image")]
    Bad,
    /// Memory was refused.
    #[error("out of memory")]
    Memory,
}

impl From<AllocError> for BuildFault {
    ghost use Rattle.f2_plain_read.specs.declared.faults.BuildFault.TheVariants.{Memory};

    ghost from_gives = { λ _ fault. fault ≡ Memory };

    fn from(_error: AllocError) -> BuildFault {
        BuildFault::Memory
    }
}

impl<T: Drop> From<AllocFailed<T>> for BuildFault {
    ghost use Rattle.f2_plain_read.specs.declared.faults.BuildFault.TheVariants.{Memory};

    ghost from_gives = { λ _ fault. fault ≡ Memory };

    fn from(_error: AllocFailed<T>) -> BuildFault {
        BuildFault::Memory
    }
}

impl From<BuildFault> for ReadFault {
    ghost use Rattle.f2_plain_read.specs.Faults.{unbuilt};

    ghost from_gives = { λ error fault. fault ≡ unbuilt error };

    fn from(error: BuildFault) -> ReadFault {
        match error {
            BuildFault::Bad => ReadFault::Bad,
            BuildFault::Memory => ReadFault::Memory,
        }
    }
}
