//! The abstract machine, run: a plain and slow program whose contract is its definition.
//!
//! [`Machine::step`] makes one event. It is a step of the abstract machine in which nothing fails, with the answer,
//! the entries and the state that the definition gives; where the machine may choose, the caller says how. So what
//! it prints on a script shows what the definitions say. There is no disk, no block and no fault.
//!
//! `specs/Choosing` says what an event comes to, and `specs/Sound` what holds of every machine.
#![tactic(auto)]

mod begins;
mod choices;
mod goes;
mod machine;
mod mounts;
mod ticks;
mod written;

pub use choices::{Choices, MarksKept};
pub use f2_reference_calls::outcome;
pub use f2_reference_reasons::fallback;
pub use machine::Machine;
