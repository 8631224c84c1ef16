//! What a thread calls the lock with.
ghost use Rattle.std.specs.Prelude.{◌≡◌, ◌≢◌, []};
ghost use Rattle.f2_seat_lock.specs.Rule.{HasOwn, Rests, known};

use crate::parts::Parts;
use crate::view::View;
use atomic_table::Seat;
use std::marker::Model;

/// A seat at a lock, with what it knows of the value. It may move to another thread. One that is dropped takes the parts that
/// it answers for with it, and the lock can't be closed. Contracts see it as a `Known`.
pub struct Pass<V: Parts> {
    pub(crate) seat: u8,
    pub(crate) left: u8,
    pub(crate) token: Seat<V, View<V, V::Part, V::Entry>>,
}

impl<V: Parts> Model for Pass<V> {
    ghost use Rattle.f2_seat_lock.specs.Known.{Known};

    ghost Value = { Known V.Part V.Entry };

    ghost use Rattle.f2_seat_lock.specs.Rule.{known};
    ghost use Rattle.f2_seat_lock.specs.Turn.{IsPass};

    ghost view = { λ p. known p.token.table_id p.token.me.0 };

    ghost invariant = { λ p. IsPass p.seat p.left p.token.me };
}

impl<V: Parts> Pass<V> {
    /// The seat's number.
    pub fn seat(&self) -> u8
        ensures { result ≡ self.now.seat }
    {
        self.seat
    }

    /// How many seats can still be split off. It is 0 for a pass that is not seat 0's.
    pub fn left(&self) -> u8
        ensures left { result ≡ self.now.left }
        ensures first { self.now.seat ≢ 0 → result ≡ 0 }
    {
        self.left
    }

    /// The seat at the table.
    pub(crate) fn into_token(self) -> Seat<V, View<V, V::Part, V::Entry>>
        ensures known { known result.table_id result.me.0 ≡ self }
        ensures rests { (result.me.1 ≡ []) × Rests result.me.0 }
        ensures own { HasOwn result.me.0 }
    {
        let Self {
            seat: _,
            left: _,
            token,
        } = self;
        token
    }
}

impl<V: Parts> Drop for Pass<V> {
    fn drop(self) {
        let Self {
            seat: _,
            left: _,
            token: _,
        } = self;
    }
}
