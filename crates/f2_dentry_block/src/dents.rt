//! What a dentry block holds, and why bytes are none.

ghost use Rattle.std.specs.Prelude.{◌≡◌};
ghost use Rattle.f2_dentry_block.specs.declared.dents.UnpackFault.TheVariants.{Memory};

use f2_model::{Kind, Name};
use std::alloc::{AllocError, AllocFailed};
use thiserror::Error;

/// A name of a directory, and what it is bound to (`struct f2fs_dir_entry` of f2fs_fs.h, without its hash).
#[derive(Debug, Drop)]
pub struct Dent {
    /// The name's bytes.
    pub name: Name,
    /// The ino of the file.
    pub ino: u32,
    /// The kind of the file.
    pub kind: Kind,
}

/// Why the names of a block couldn't be taken.
#[derive(Clone, Copy, Debug, PartialEq, Eq, Error)]
pub enum UnpackFault {
    /// The first slot, of 0 to 213, in which a wrong name begins: one of no byte or of more than 255, one that goes
    /// past the last slot or takes a slot that isn't marked as used, or one of an unknown file type.
    #[error("a wrong name in slot {slot} of a dentry block")]
    Dent { slot: u8 },
    /// Memory was refused.
    #[error("out of memory")]
    Memory,
}

impl From<AllocError> for UnpackFault {
    ghost from_gives = { λ _ fault. fault ≡ Memory };

    fn from(_error: AllocError) -> UnpackFault {
        UnpackFault::Memory
    }
}

impl<T: Drop> From<AllocFailed<T>> for UnpackFault {
    ghost from_gives = { λ _ fault. fault ≡ Memory };

    fn from(_error: AllocFailed<T>) -> UnpackFault {
        UnpackFault::Memory
    }
}
