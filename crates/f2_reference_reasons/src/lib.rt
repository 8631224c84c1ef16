//! Why an fsync makes a checkpoint in place of rolling forward, and the room that it is measured against.
//!
//! [`fallback`] is the definition of the abstract machine, run: the six reasons in their order, from rows and sets
//! that are scanned plainly. What its last reason counts stands beside it: what fsyncs in flight still have to write
//! ([`owed`]), what one more needs ([`needed`]), and the most that a tree which recovery may find takes ([`held`]).
#![tactic(auto)]

mod boths;
mod holding;
mod owing;
mod reasons;
mod recovering;

pub use boths::Both;
pub use holding::held;
pub use owing::{needed, owed};
pub use reasons::{fallback, is_name_taken, lacks_room};
