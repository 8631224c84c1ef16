//! What the seats of the table know, and the rule over it.
use crate::parts::Parts;
use atomic_table::{Join, Play, Split, TableRule};
use std::collections::LinkedList;
use std::snapshot::Snapshot;

/// What a seat knows: its number, how many seats it can split off, the parts that it answers for, the log that it has seen,
/// what a joined seat had seen, the greatest number of marks told, and while it has the turn a copy of the value.
/// No value of it is made.
pub struct View<S, P, E> {
    pub seat: u8,
    pub left: u8,
    pub parts: LinkedList<Option<P>>,
    pub seen: LinkedList<E>,
    pub heard: LinkedList<E>,
    pub told: u64,
    pub holds: Option<S>,
}

/// What the table is told when it is made: the number of seats, and the value.
pub struct Opening<S> {
    pub seats: u8,
    pub value: Snapshot<S>,
}

impl<S> Drop for Opening<S> {
    fn drop(self) {
        let Self { seats: _, value: _ } = self;
    }
}

/// The rule of the lock's table.
pub struct SeatRule;

impl<V: Parts> TableRule<V, View<V, V::Part, V::Entry>, Opening<V>> for SeatRule {
    ghost use Rattle.f2_seat_lock.specs.Rule.{Kept, first_view};

    ghost holds = { λ _. Kept V.log V.part V.marks_in };

    ghost first = { λ k. first_view V.log V.part k.seats k.value.value };
}

/// Takes the turn, where it is free.
pub struct Take;

impl<V: Parts> Play<V, View<V, V::Part, V::Entry>> for Take {
    ghost use Rattle.f2_seat_lock.specs.Plays.{took};

    ghost then = { took V.log V.part V.marks_in };
}

/// Raises the durable number to the marks of what the job left.
pub struct Raise;

impl<V: Parts> Play<V, View<V, V::Part, V::Entry>> for Raise {
    ghost use Rattle.f2_seat_lock.specs.Plays.{raised_to};

    ghost then = { raised_to V.log V.part };
}

/// Gives the turn.
pub struct Give;

impl<S, P, E> Play<S, View<S, P, E>> for Give {
    ghost use Rattle.f2_seat_lock.specs.Plays.{gave};

    ghost then = { gave };
}

/// Reads the durable number.
pub struct Tell;

impl<V: Parts> Play<V, View<V, V::Part, V::Entry>> for Tell {
    ghost use Rattle.f2_seat_lock.specs.Plays.{told};

    ghost then = { told V.marks_in };
}

/// Sees what was heard of.
pub struct Settle;

impl<S, P, E> Play<S, View<S, P, E>> for Settle {
    ghost use Rattle.f2_seat_lock.specs.Plays.{settles};

    ghost then = { settles };
}

/// Splits off the next seat.
pub struct Seats;

impl<S, P, E> Split<View<S, P, E>> for Seats {
    ghost use Rattle.f2_seat_lock.specs.Rule.{split_left, split_right};

    ghost left = { split_left };

    ghost right = { split_right };
}

impl<S, P, E> Join<View<S, P, E>> for Seats {
    ghost use Rattle.f2_seat_lock.specs.Rule.{join_both, spent};

    ghost both = { join_both };

    ghost spent = { spent };
}
