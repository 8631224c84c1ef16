//! Volumes on a disk, from an image that is made to one that is mounted.
//!
//! An image can be read: [`recover_image`] gives the tree that an image of any bytes stands for, or a condition that stands
//! in it. What the layer above needs is its clause `recovered`: the image means a base and marks, and the tree is the base
//! with the marks rolled forward (`specs/Recovering`).
//!
//! And an image can be made: [`mkfs`] gives a disk of any content a new one, with the root alone. What the layer
//! above needs is its clause `made`: the disk then has a new image, that is, whatever a crash leaves of it has these
//! sizes and stands for the root alone by its first checkpoint, without marks and clean, and no block waits for a
//! flush. `specs/Making` says this in the words of the abstract machine, and `specs/Faults` which fault comes from
//! which.
#![tactic(auto)]

mod faults;
mod logs;
mod making;
mod recovering;
mod trees;

pub use faults::MakeFault;
pub use making::mkfs;
pub use recovering::{Recovered, recover_image};
