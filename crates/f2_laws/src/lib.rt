//! Laws of the abstract machine: what the definitions of trees, calls, states and events come to.
//!
//! No program runs this crate. Each function has an empty body, and its contract is a law that holds of
//! every tree, state and call; the statements stand in `specs/`, one file a topic, in the words of
//! `f2_model`. What the layers above lean on most: without a failure the choices that are told decide
//! what an event comes to ([`choices_decide`]), nothing acknowledged is lost
//! ([`durable_rows_survive`]), a mount after a loss of power brings back a base with its acknowledged
//! marks, or a checkpoint's tree ([`mounts_bring_back`]), a call that isn't refused finds an ino for its new row
//! ([`free_ino_is_there`]), and every call leaves a good tree good ([`calls_keep_trees_good`]).
#![tactic(auto)]

mod acknowledging;
mod beginning;
mod checkpointing;
mod choice;
mod freezing;
mod goodness;
mod order;
mod refusals;
mod remounting;
mod rolling;
mod room;
mod space;
mod survival;

pub use acknowledging::acknowledged_fsyncs_are_marked;
pub use beginning::calls_have_their_outcomes;
pub use checkpointing::checkpoints_are_whole;
pub use choice::choices_decide;
pub use freezing::marks_are_clean;
pub use goodness::calls_keep_trees_good;
pub use order::members_are_in_order;
pub use refusals::refusals_leave_the_tree;
pub use remounting::mounts_bring_back;
pub use rolling::marks_roll_in_order;
pub use room::free_ino_is_there;
pub use space::ino_leaves_space;
pub use survival::durable_rows_survive;
