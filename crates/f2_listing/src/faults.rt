//! Why no text of a tree was made.
ghost use Rattle.std.specs.Prelude.{◌≡◌};
ghost use Rattle.f2_listing.specs.declared.faults.ListFault.TheVariants.{Memory, Read};

use f2_disk::DiskFault;
use std::alloc::{AllocError, AllocFailed};
use thiserror::Error;

/// Why no text of a tree was made.
#[derive(Clone, Copy, Debug, PartialEq, Eq, Error)]
pub enum ListFault {
    /// A read of the disk failed.
    #[error("the image can't be read")]
    Read,
    /// Memory was refused.
    #[error("out of memory")]
    Memory,
}

impl From<DiskFault> for ListFault {
    ghost from_gives = { λ _ fault. fault ≡ Read };

    fn from(_fault: DiskFault) -> ListFault {
        ListFault::Read
    }
}

impl From<AllocError> for ListFault {
    ghost from_gives = { λ _ fault. fault ≡ Memory };

    fn from(_error: AllocError) -> ListFault {
        ListFault::Memory
    }
}

impl<T: Drop> From<AllocFailed<T>> for ListFault {
    ghost from_gives = { λ _ fault. fault ≡ Memory };

    fn from(_error: AllocFailed<T>) -> ListFault {
        ListFault::Memory
    }
}
