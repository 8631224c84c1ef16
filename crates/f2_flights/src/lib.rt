//! Calls in flight by their seats, and sets of inos.
//!
//! [`Flights`] has the call of each seat: an fsync, how far it got and which position of the node log it has open, or a
//! checkpoint. [`Inos`] is a set of files. Contracts see both as the abstract machine of `f2_model` does: a finite map
//! and a finite set (`flight_of` of `specs/Parts`); what they give in order rises, as in its definitions. A call that is
//! refused memory changes nothing.
#![tactic(auto)]

mod flights;
mod inos;

pub use flights::{Drawn, Flight, Flights, Part, Progress, Slot};
pub use inos::Inos;
