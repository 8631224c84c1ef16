//! The node log in memory: the chain of node blocks that the fsyncs since the last checkpoint append.
//!
//! An fsync writes its node blocks to the log's addresses in the node zone, and each footer names the checkpoint's
//! version and the address of the next block, so recovery can follow the chain from the address that the checkpoint
//! has (`find_fsync_dnodes` of fs/f2fs/recovery.c). So the next block's address is drawn before a block is written. A
//! position of the chain is reserved in one event and submitted in another; several may be open, and they may be
//! submitted in any order.
//!
//! What the layer above uses: contracts see a [`WarmLog`] as a `NodeLog`, its positions in the order of the chain.
//! [`WarmLog::reserve`] appends a position at the address that was drawn ahead, and keeps the log in step with its zone
//! (`IsInStep`). [`WarmLog::submit`] is one write: it links the block into the chain (`linked_block`) and closes the
//! position. [`WarmLog::first_gap`] tells up to where the chain has no hole. The kernel has such blocks in its warm node
//! log (`CURSEG_WARM_NODE`), which gave the crate its name.
//!
//! The definitions stand in `specs/Log.antt` and `specs/Link.antt`.
#![tactic(auto)]

mod link;
mod positions;
mod warm_log;
mod zone;

pub use positions::{Position, Slot};
pub use warm_log::WarmLog;
