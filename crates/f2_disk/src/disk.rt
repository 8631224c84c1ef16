ghost use Rattle.std.specs.Prelude.{◌≡◌, ℕ, ◌<◌, Option, OnOk, OnErr, IfSome, option_map};
ghost use Rattle.f2_disk.specs.Contents.{Contents, IsBlock, IsWhole, IsWritten, IsWriteFailed, WhereTold, list_at, last_of, flushed, zeros};
ghost use Rattle.f2_disk.specs.Meter.{Meter, HasFailed, IsWithin};

use thiserror::Error;

/// The bytes of one block.
pub type Block = [u8; 4096];

/// A read, a write or a flush of a disk failed.
#[derive(Clone, Copy, Debug, PartialEq, Eq, Error)]
#[error("the disk failed")]
pub struct DiskFault;

/// A disk of blocks, each read and written as a whole.
///
/// A write may stay in the disk's own memory until the next flush. A crash before that leaves the block's old
/// content or a newer one, chosen for each block by itself, and never a part of one.
pub trait Disk {
    /// What it holds, where that is known. A disk outside this process doesn't tell.
    ghost contents: { Self → Option Contents };

    /// Its number of blocks, its count of faults, the failures and the stop that are planned, and its room.
    ghost meter: { Self → Meter };

    /// How many blocks it has. No call changes that.
    fn blocks(&self) -> u32
        ensures count { result ≡ (meter self.now).blocks }
        ensures whole { IfSome (contents self.now) (IsWhole (meter self.now).blocks) };

    /// How many of its calls have failed. The count stands still at the end of its type.
    fn faults(&self) -> u64
        ensures { result ≡ (meter self.now).faults };

    /// Reads the newest content of a block. A fault leaves anything in `into`.
    fn read(&mut self, at: u32, into: &mut Block) -> Result<(), DiskFault>
        requires { at < (meter self.old).blocks }

        ensures content { OnOk result (IfSome (contents self.old) (λ lists. into.new ≡ last_of (list_at lists at))) }
        ensures kept { contents self.new ≡ contents self.old }

        ensures cause { OnErr result (HasFailed (meter self.old) (meter self.new)) }
        ensures within { IsWithin 0 (meter self.old) (meter self.new) };

    /// Writes a block as a whole. After a fault the content may stand in the block's list all the same.
    fn write(&mut self, at: u32, from: &Block) -> Result<(), DiskFault>
        requires { at < (meter self.old).blocks }

        ensures written { OnOk result (WhereTold (contents self.old) (contents self.new) (IsWritten at from.now)) }
        ensures failed { OnErr result (WhereTold (contents self.old) (contents self.new) (IsWriteFailed at from.now)) }

        ensures cause { OnErr result (HasFailed (meter self.old) (meter self.new)) }
        ensures within { IsWithin 1 (meter self.old) (meter self.new) };

    /// Makes what was written last: after it a crash leaves what reads give. A fault changes nothing.
    fn flush(&mut self) -> Result<(), DiskFault>
        ensures flushed { OnOk result (contents self.new ≡ option_map flushed (contents self.old)) }
        ensures failed { OnErr result (contents self.new ≡ contents self.old) }

        ensures cause { OnErr result (HasFailed (meter self.old) (meter self.new)) }
        ensures within { IsWithin 0 (meter self.old) (meter self.new) };
}

/// A block of zeros.
pub(crate) fn blank_block() -> Block
    ensures zeros { result ≡ zeros }
    ensures block { IsBlock result }
{
    [0; 4096]
}
