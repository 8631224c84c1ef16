//! The node address table of a running volume.
//!
//! The table tells of each nid whose node it is and where that stands. On the disk it is a journal in the
//! checkpoint pack, and two copies of each of its blocks, of which a bitmap names the one that counts. A
//! [`Cache`] keeps it in memory, as the kernel's `struct f2fs_nm_info` does (fs/f2fs/node.c): the journal and the
//! bitmap of the last checkpoint, the entries that were put since then, whole blocks that are held, and some clean
//! entries of other blocks.
//!
//! What the layer above uses: contracts see a cache as these parts, and over them one map from nid to entry,
//! `entry_at`. [`Cache::get`] reads the map and [`Cache::put`] changes it at one nid. [`Cache::plan`] tells what a
//! checkpoint writes: all that changed into the journal, where that has room for it, else each block with a change.
//! Where blocks are held and memory was taken ahead, [`Cache::put_ready`], [`Cache::block`], [`Cache::journal`] and
//! [`Cache::bitmap`] neither fail nor read the disk. Once the checkpoint is done, [`Cache::committed`] makes what it
//! wrote the table's own, and the map stays.
//!
//! The definitions stand in `specs/Table.antt` (the map), `specs/Entries.antt` and `specs/Plan.antt`.
#![tactic(auto)]

mod cache;
mod clean;
mod commits;
mod dirty;
mod journal;
mod pending;

pub use cache::{Cache, CpNat};
