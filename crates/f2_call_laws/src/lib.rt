//! Calls between the events of a running volume: what each of them keeps.
//!
//! No program runs this crate. What a running volume keeps is told in `f2_stored`, in `specs/Kept` and `specs/Whole`;
//! here, in `specs/Calls`, stands how a call changes what a volume knows of places. Each function below has an empty
//! body, and its contract is a law.
#![tactic(auto)]

mod calls;

pub use calls::calls_keep;
