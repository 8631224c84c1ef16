//! A lock whose value has a part for each seat, and one log.
//!
//! Threads share the lock, and each calls it with a [`Pass`] of its own, which stands for a seat. A pass knows the parts that
//! it answers for and the log that it has seen. [`SeatLock::with`] runs a [`Job`] on the value while no other seat has it:
//! the job finds the seat's part just as this pass left it and a log that begins with what the pass has seen, and afterwards
//! the pass has what the job left. [`SeatLock::split`] makes the next seat's pass, and [`SeatLock::join`] takes a pass in
//! again, with its parts and the longer of the two logs. [`SeatLock::durable`] reads how many marks the log has without
//! waiting for anybody, and [`SeatLock::close`] gives the value back once all passes were joined into one.
//!
//! ```text
//! let (lock, mut first) = SeatLock::new(alloc, value, 2)?;
//! let second = lock.split(&mut first);
//! let (mut first, second) = thread::join(rt, || work(rt, &lock, first), || work(rt, &lock, second));
//! lock.join(&mut first, second);
//! let value = lock.close(first);
//! ```
//!
//! The one contract that a caller builds on is `Holds`, the promise of `with`. It stands in `specs/Known.antt` beside
//! `Known`, which is what contracts see of a pass, and `specs/Map.antt` has the words on its parts. The rest of `specs/` is
//! for the proof: `Rule.antt` has the rule that holds between any two steps of any threads, `Plays.antt` what a step tells.
//!
//! There is an order between two holds only as far as a pass has seen one of them before the other, by its own calls or by
//! a join or a split. Nothing is promised between callers whose passes were never joined, and nobody is promised to be
//! served: a call of `with` owes its promise only if it returns.
#![tactic(auto)]

mod lock;
mod parts;
mod pass;
mod view;

pub use lock::SeatLock;
pub use parts::{Job, Parts};
pub use pass::Pass;
