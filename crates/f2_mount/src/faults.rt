//! Why no image was made.
ghost use Rattle.std.specs.Prelude.{◌≡◌};
ghost use Rattle.f2_mount.specs.Faults.{fault_of};

use f2_plain_save::SaveFault;
use thiserror::Error;

/// Why no image was made.
#[derive(Clone, Copy, Debug, PartialEq, Eq, Error)]
pub enum MakeFault {
    /// A write or a flush of the disk failed.
    #[error("the disk can't be written")]
    Write,
    /// Memory was refused.
    #[error("out of memory")]
    Memory,
}

impl From<SaveFault> for MakeFault {
    ghost from_gives = { λ error fault. fault ≡ fault_of error };

    fn from(error: SaveFault) -> MakeFault {
        match error {
            SaveFault::Write => MakeFault::Write,
            SaveFault::Memory => MakeFault::Memory,
        }
    }
}
