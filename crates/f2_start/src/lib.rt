//! The beginning of a mount of any image: its superblock and its newest checkpoint.
//!
//! The layer above calls [`read_start`], which tells the sizes of the image, and the pack of the checkpoint that counts: from
//! these it reads the node address table and the node log. [`recovery_version`] is the version by which it knows the blocks
//! of that log.
//!
//! Where an image has no checkpoint, one of two conditions stands in it, and is told: `BadSuper` where neither copy of the
//! superblock is right, and `NoCheckpoint` where neither pack is valid. So no image with a checkpoint is refused. Nothing is
//! written, and `Read` comes only where a read of the disk failed; after any error the call can be made again.
//!
//! What is promised of an image is said of each one that the disk tells. On a disk that doesn't tell what it holds it is
//! known that the image fits the disk, and that its node log begins in its node zone.
//!
//! What an image and its checkpoint are is defined in `f2_image`; what was read of a checkpoint, and when a fault is right,
//! in this crate's `specs/Starts.antt`.
#![tactic(auto)]

mod blocks;
mod packs;
mod reading;
mod recovery;
mod superblock;

pub use reading::{Start, read_start};
pub use recovery::recovery_version;
