//! Laws of a base that was read (`f2_recover`): it is right in all that an image can be wrong in, and its rows are those of
//! the tree that the image stands for.
//!
//! The statements stand in `specs/Sound.antt`.
#![tactic(auto)]

mod sound;

pub use sound::{bases_are_right, bases_are_there, rows_are_alike};
