//! Laws of the abstract machine about room: what a mount may find after a crash is a good tree, and fits
//! the image.
//!
//! No program runs this crate. Each function has an empty body, and its contract is a law that holds of
//! every state, event and run; the statements stand in `specs/`, one file a topic, in the words of
//! `f2_model`. What the layers above lean on is [`what_may_remain_is_proper`]: in every run of an image
//! that was just made, each base with its marks that a crash may leave makes a tree that is good and takes
//! no more nodes and data blocks than the image grants. No fsync that rolls forward can bring a mount a
//! tree that it has no room for.
//!
//! It rests on two laws. One marked row more leaves a rolled tree proper where an fsync of it may roll
//! forward ([`marks_come_in_well`]), since what was held for it bounds every tree that recovery makes of
//! the same rows. And every event, also one whose write or flush fails, keeps what that asks
//! ([`events_keep_states_proper`]): `IsProperState` in `specs/ProperStates.antt` says what holds of each state.
//!
//! And as long as a file is in fsync, the row that calls see of it stays ([`rows_stay_in_fsync`]). The marks
//! of every run go with their base and with each other ([`marks_fit`]), and its writes fit the zones with
//! what its fsyncs have still to write ([`writes_fit`]); so a new row finds a number ([`numbers_are_free`]).
#![tactic(auto)]

mod fitting;
mod free_numbers;
mod marking;
mod proper_states;
mod proper_trees;
mod room_for_writes;
mod running;
mod staying;

pub use fitting::marks_fit;
pub use free_numbers::numbers_are_free;
pub use marking::marks_come_in_well;
pub use proper_states::events_keep_states_proper;
pub use proper_trees::bare_tree_is_proper;
pub use room_for_writes::writes_fit;
pub use running::what_may_remain_is_proper;
pub use staying::rows_stay_in_fsync;
