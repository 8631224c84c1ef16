//! The node log of an image, read block by block along its chain.
//!
//! The layer above calls [`scan`] at a mount, with the place where the newest checkpoint says that the log begins and
//! the version that its blocks carry. What comes back is the whole chain in its order, each block in memory of its own,
//! or the fault that keeps recovery from taking any of it. Nothing is written, and no file is looked at: which blocks
//! count is for the layer above.
//!
//! F2FS walks the same chain twice in its recovery.c: `find_fsync_dnodes` looks for the files that have a mark,
//! `recover_data` takes the blocks of each up to its last mark. What it does at a block, and what a scan does:
//!
//! | case | F2FS | a scan |
//! |---|---|---|
//! | the block carries another version than the checkpoint's | the log ends before it | the same |
//! | the next address is 0 | no address of the main area, so the log ends | the log ends |
//! | the next address is out of the main area | the log ends | [`ScanFault::OutOfZone`], also where it is in the data zone |
//! | the chain comes back to one of its blocks | noticed on the way, and an error | [`ScanFault::ChainLong`]: it has more blocks than a third of the node zone |
//! | an inode with the fsync mark | its file is recovered up to this block | kept |
//! | such an inode whose mode, name's length or size is none of ours | taken as it stands | [`ScanFault::BadInode`] |
//! | a direct node with the fsync mark | its file is recovered up to this block | kept; only an inode's mark is one |
//! | a direct node without a mark, before a mark of its file | its addresses are taken (`do_recover_data`) | kept |
//! | a block without a mark, and no mark of its file behind it | passed over | kept |
//! | the dentry mark | the name goes into its directory (`recover_dentry`) | kept |
//! | the other fields of a marked inode | owner, times and flags too are taken (`recover_inode`) | kept, and not looked at |
//! | orphans, extended attributes, data inside the inode, quota | each has its case | not there: no image has them |
//!
//! What is kept is a block of the list; recovery proper, above, decides what it means.
//!
//! What the log of an image is stands in `f2_image`, in `specs/Chains.antt`; what a scan finds, and which faults stand, in
//! this crate's `specs/Logs.antt`; and that these are the conditions of an image with a checkpoint in `specs/Laws.antt`.
#![tactic(auto)]

mod faults;
mod laws;
mod logs;
mod scanning;

pub use faults::ScanFault;
pub use laws::scans_tell;
pub use logs::{Chain, LogBlock};
pub use scanning::scan;
