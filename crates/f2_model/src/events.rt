//! What may happen to a volume, and what it answers.
use crate::replies::{Begun, Step, Tick};
use crate::requests::Request;
use thiserror::Error;

/// The seat of the checkpoints of mounts, unmounts and upgrades.
pub const MOUNT_SEAT: u8 = 0;

/// The seat that stands in a fault of the flusher or of a mount.
pub const NO_SEAT: u8 = 255;

/// What may happen to a volume.
#[derive(Debug, Drop)]
pub enum Event {
    /// A seat, 1 to 9, begins a call.
    Begin { seat: u8, request: Request },
    /// The next event of a seat's call. Seat 0 carries on the checkpoints of mounts, unmounts and upgrades.
    Go { seat: u8 },
    /// One event of the flusher.
    Tick,
    /// The volume is to be opened.
    Mount,
    /// The volume is to be closed, by a checkpoint.
    Unmount,
    /// The volume is to be closed, by a checkpoint of the newer format.
    Upgrade,
    /// Power is lost.
    Crash,
}

/// Why a mount finds no tree.
#[derive(Clone, Copy, Debug, PartialEq, Eq, Error)]
pub enum MountRefusal {
    /// A read of the disk failed.
    #[error("the image can't be read")]
    ReadFailed,
    /// A write or a flush of the disk failed.
    #[error("the image can't be written")]
    WriteFailed,
    /// The image stands for no tree, or its version is at its end.
    #[error("the image has no tree that can be mounted")]
    BadImage,
    /// Memory was refused; nothing changed but for a flush.
    #[error("out of memory")]
    NoMemory,
}

/// What an event answers.
#[derive(Debug, Drop)]
pub enum Answer {
    /// To the beginning of a call, of an unmount and of an upgrade.
    Began(Begun),
    /// To the next event of a call.
    Stepped(Step),
    /// Of the flusher.
    Ticked(Tick),
    /// To a mount: this many marked rows were rolled forward.
    Found(u32),
    /// To a mount: the volume is open, or is being mounted.
    AlreadyMounted,
    /// To a mount: no tree was found.
    NotMounted(MountRefusal),
    /// To a loss of power.
    Crashed,
}
