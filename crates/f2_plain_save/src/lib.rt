//! Checkpoints of images that are laid out plainly, written to a disk.
//!
//! [`mkfs`] makes an image with the root alone, and [`save`] writes a tree as the checkpoint after another. Each takes
//! its memory before it writes. A checkpoint is written so: all blocks but the tail of its pack, a flush, the tail, a
//! flush. No block of the last checkpoint's tree, copy of the table or pack is written over, and the new pack counts
//! only once its tail is there. So a crash leaves the old tree laid out, or the new one.
//!
//! The layer above needs the clauses `saved` and `safe` of [`save`], which stand in `specs/Saves`. `specs/Writing` and
//! `specs/Blanks` say what the parts leave on a disk. The three functions without a body are the laws behind it, about
//! images alone, with their statements in `f2_laid`'s `specs/Laws`.
#![tactic(auto)]

mod blanks;
mod faults;
mod laws;
mod making;
mod packs;
mod saving;
mod writing;

pub use faults::SaveFault;
pub use laws::{laid_images_are_ready, laid_images_stay, plans_make_laid};
pub use making::mkfs;
pub use saving::save;
