//! What a running volume counts since its last checkpoint, so that it knows why an fsync makes another one.
//!
//! A file is fsynced into the node log alone, or, for one of six reasons, by a checkpoint. [`Since::reason`] tells
//! which: exactly what the abstract machine's definition says of the state, at the cost of what the fsync itself
//! touches. For that [`Since`] keeps what a recovery may put together, the blocks that were written to each zone, and
//! the names that rows of the base or of marks have and that no row has any more; none of it is counted anew.
//!
//! Contracts see [`Since`] as what was counted (`Counted` of `specs/Counted`); `IsSince` says when that is what a
//! state of the machine has, and `IsRunning` what else holds of the state of a running volume.
#![tactic(auto)]

mod begins;
mod blocks;
mod laws;
mod names;
mod parted;
mod reasons;
mod room;
mod rows;
mod since;

pub use laws::counts_stay;
pub use since::Since;
