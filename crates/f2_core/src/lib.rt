//! The volume as a machine of events, kept plainly: its tree is a map of rows, and a checkpoint writes all of it.
//!
//! What the layer above uses is the contract of [`Core::step`]: from a state of the abstract machine each event leads to
//! another one by the machine's own steps, the history goes on by what they leave, and whatever a crash may leave of the
//! disk stands for the tree of the last checkpoint. So the history of a core is a run of the machine from the tree of
//! the root alone.
//!
//! So far a core has files in the root, with their content, and calls that add a file or write into one.
//! [`Core::made`] makes its image; a sync writes the whole tree as the next checkpoint; a mount builds the tree from the
//! blocks alone. Claims are made of disks that tell what they hold, and nothing is claimed from an event on in which a
//! call of the disk fails.
//!
//! `specs/Seen` says what contracts see of a core and which states it may be in, `specs/Events` what a call comes to,
//! `specs/Changes` what a call makes of the files, `specs/Found` what is found on a disk, and `specs/Writes` how many
//! writes an event makes at most.
#![tactic(auto)]

mod changes;
mod checkpoints;
mod entries;
mod machine;
mod volumes;

pub use machine::{Core, making_writes};
pub use volumes::Volume;
