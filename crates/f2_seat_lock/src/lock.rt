//! The lock, and the steps on its table.
//!
//! The table has one slot, for the value, and two words. The turn says who may take the value out of the slot. The durable
//! number is that of the marks of the value's log, and it is raised after a job and before the value goes back, so that it
//! can be read at any time.
ghost use Rattle.std.specs.Prelude.{◌≡◌, ◌≢◌, ◌<◌, ◌≤◌, ◌-◌, List, [], ◌∷◌, length, All, IsSome, Some, None, IfOk, IfErr};
ghost use mathlib.Core.List.{IsPrefix};
ghost use Rattle.f2_seat_lock.specs.Map.{part_of, all_parts};
ghost use Rattle.f2_seat_lock.specs.Known.{split_off, split_rest, joined, after_told, Holds};
ghost use Rattle.f2_seat_lock.specs.Rule.{raised, holding, Fits};
ghost use Rattle.f2_seat_lock.specs.Turn.{HoldsValue, Moves};
ghost use Rattle.f2_seat_lock.specs.Plays.{Taken};

use crate::parts::{Job, Parts};
use crate::pass::Pass;
use crate::view::{Give, Opening, Raise, SeatRule, Seats, Settle, Take, Tell, View};
use atomic_table::{Refused, Seat, Table};
use std::alloc::{AllocFailed, Global};
use std::marker::Model;
use std::snapshot::Snapshot;
use std::sync::Wait;

// The words of the table.
const TURN: usize = 0;

const DURABLE: usize = 1;

// Its slot.
const VALUE: usize = 0;

// The turn is free, or a seat has it, or a seat has it and others may sleep until it is given.
const FREE: u64 = 0;

const TAKEN: u64 = 1;

const WAITED: u64 = 2;

/// A value that its seats change one at a time. Contracts see it as its `LockId`.
#[derive(Drop)]
pub struct SeatLock<V: Parts> {
    table: Table<V, View<V, V::Part, V::Entry>, Opening<V>, SeatRule, Global>,
    seats: u8,
}

impl<V: Parts> Model for SeatLock<V> {
    ghost use Rattle.std.specs.Prelude.{◌≡◌};
    ghost use Rattle.f2_seat_lock.specs.Known.{LockId};

    ghost Value = { LockId };

    ghost view = { λ l. record { table = l.table.shared.table_id; seats = l.seats } };

    ghost invariant = { λ l. (l.table.shared.table_id.words ≡ 2) × (l.table.shared.table_id.slots ≡ 1) };
}

impl<V: Parts> SeatLock<V> {
    /// A lock round the value with 1 to 12 seats, and the pass of seat 0. It answers for all parts, and has seen the value's log.
    /// At an `Err` there was no memory, and the value is as it came.
    pub fn new(alloc: Global, value: V, seats: u8) -> Result<(SeatLock<V>, Pass<V>), V>
        requires { (1 ≤ seats) × (seats ≤ 12) }
        ensures lock { IfOk result (λ made. made.1.lock ≡ made.0) }
        ensures seats { IfOk result (λ made. (made.0.seats ≡ seats) × (made.1.seat ≡ 0) × (made.1.left ≡ seats - 1)) }
        ensures parts { IfOk result (λ made. made.1.parts ≡ all_parts (V.part value) seats) }
        ensures seen { IfOk result (λ made. (made.1.seen ≡ V.log value) × (made.1.told ≡ 0)) }
        ensures err { IfErr result (λ same. same ≡ value) }
    {
        let about = Opening {
            seats,
            value: Snapshot::of(&value),
        };
        let marks = value.marks();
        let mut slots = Vec::new(alloc);
        if let Err(AllocFailed { value }) = slots.push(value) {
            slots.destroy_empty();
            return Err(value);
        }
        match Table::new(alloc, &[FREE, marks], slots, &about) {
            Ok((table, token)) => {
                let pass = Pass {
                    seat: 0,
                    left: seats - 1,
                    token,
                };
                Ok((SeatLock { table, seats }, pass))
            }
            Err(Refused { mut slots }) => {
                let Some(value) = slots.pop() else {
                    unreachable!()
                };
                slots.destroy_empty();
                Err(value)
            }
        }
    }

    /// A pass for the next seat, with that seat's part out of the map of `pass` and with all that `pass` has seen.
    /// Only seat 0's pass has seats left.
    pub fn split(&self, pass: &mut Pass<V>) -> Pass<V>
        requires lock { pass.old.lock ≡ self.now }
        requires left { 0 < pass.old.left }
        ensures new { result ≡ split_off pass.old }
        ensures rest { pass.new ≡ split_rest pass.old }
    {
        let seat = self.seats - pass.left;
        let token = self.table.shared.split_seat::<Seats>(&mut pass.token);
        pass.left -= 1;
        Pass {
            seat,
            left: 0,
            token,
        }
    }

    /// Takes in another pass: its parts, and the longer of the two logs, which begins with both.
    pub fn join(&self, pass: &mut Pass<V>, other: Pass<V>)
        requires lock { pass.old.lock ≡ self.now }
        requires other { other.lock ≡ self.now }
        ensures joined { pass.new ≡ joined pass.old other }
        ensures begins { IsPrefix pass.old.seen pass.new.seen × IsPrefix other.seen pass.new.seen }
    {
        let token = other.into_token();
        self.table.shared.join_seat::<Seats>(&mut pass.token, token);
        self.table.shared.load::<Settle>(&mut pass.token, TURN);
    }

    /// Runs the job on the value while no other seat has it, and waits while another has. The job finds the seat's part as this
    /// pass left it, in a log that begins with what the pass has seen and has all marks that the pass was told of.
    pub fn with<R: Wait, J: Job<V>>(&self, rt: &R, pass: &mut Pass<V>, job: &mut J)
        requires lock { pass.old.lock ≡ self.now }
        requires ready { (part : V.Part) (log : List V.Entry)
            → part_of pass.old.parts pass.old.seat ≡ Some part
            → IsPrefix pass.old.seen log
            → J.needs job.old pass.old.seat part log }
        ensures { Holds V.marks_in
            (λ part log left new_log. J.does pass.old.seat job.old part log job.new left new_log)
            pass.old pass.new }
    {
        let seat = pass.seat;
        let token = &mut pass.token;
        self.take_turn(rt, token);
        let marks = self.run(token, seat, job);
        self.raise(token, marks);
        self.give_turn(token);
    }

    /// The number of marks in the log at one moment of the call, as far as jobs had ended. It is one load, and waits for nobody.
    /// From then on the pass finds no log with fewer.
    pub fn durable(&self, pass: &mut Pass<V>) -> u64
        requires { pass.old.lock ≡ self.now }
        ensures seen { V.marks_in pass.old.seen ≤ result }
        ensures told { pass.old.told ≤ result }
        ensures pass { pass.new ≡ after_told pass.old result }
    {
        self.table.shared.load::<Tell>(&mut pass.token, DURABLE)
    }

    /// The value, once this pass answers for each seat, and so all others were joined into it. Its log begins with what the
    /// pass has seen, and its parts are those of the pass.
    pub fn close(self, pass: Pass<V>) -> V
        requires lock { pass.lock ≡ self }
        requires whole { All IsSome pass.parts }
        ensures log { IsPrefix pass.seen (V.log result) }
        ensures told { pass.told ≤ V.marks_in (V.log result) }
        ensures parts { pass.parts ≡ all_parts (V.part result) (length pass.parts) }
    {
        let SeatLock { table, seats: _ } = self;
        let mut closed = table.close_with(pass.into_token());
        let value = closed.take(VALUE);
        closed.free();
        value
    }

    // Takes the turn, and with it the value, which lies in the seat's hands from then on.
    fn take_turn<R: Wait>(&self, rt: &R, token: &mut Seat<V, View<V, V::Part, V::Entry>>)
        requires lock { token.old.table_id ≡ self.now.table }
        requires rests { (token.old.me.1 ≡ []) × (token.old.me.0.holds ≡ None) }
        requires own { (p : V.Part) × (part_of token.old.me.0.parts token.old.me.0.seat ≡ Some p) }
        ensures seat { (token.new.table_id ≡ token.old.table_id) × (token.new.id ≡ token.old.id) }
        ensures taken { Taken V.log V.part V.marks_in token.old.me token.new.me }
    {
        let shared = &self.table.shared;
        if shared.compare_exchange::<Take>(token, TURN, FREE, TAKEN) == FREE {
            return;
        }
        for _ in rt.forever() {
            if shared.swap::<Take>(token, TURN, WAITED) == FREE {
                return;
            }
            shared.park(rt, TURN, WAITED as u32);
        }
        unreachable!()
    }

    // Runs the job on the value in the seat's hands, and counts the marks that it left.
    fn run<J: Job<V>>(
        &self,
        token: &mut Seat<V, View<V, V::Part, V::Entry>>,
        seat: u8,
        job: &mut J,
    ) -> u64
        requires lock { token.old.table_id ≡ self.now.table }
        requires held { HoldsValue token.old.me (λ x. J.needs job.old seat (V.part x seat) (V.log x)) }
        ensures seat { (token.new.table_id ≡ token.old.table_id) × (token.new.id ≡ token.old.id) }
        ensures view { token.new.me.0 ≡ token.old.me.0 }
        ensures moves { HoldsValue token.old.me (λ x. HoldsValue token.new.me (λ y.
            Moves V.log V.part seat x y
            × (J.does seat job.old (V.part x seat) (V.log x) job.new (V.part y seat) (V.log y))
            × (result ≡ V.marks_in (V.log y)))) }
    {
        let value = token.slot_mut(&self.table.shared, VALUE);
        job.run(value, seat);
        value.marks()
    }

    // Raises the durable number to the marks that the job left, of which all seats can know from then on.
    fn raise(&self, token: &mut Seat<V, View<V, V::Part, V::Entry>>, marks: u64)
        requires lock { token.old.table_id ≡ self.now.table }
        requires held { HoldsValue token.old.me (λ y. (x : V)
            × (token.old.me.0.holds ≡ Some x)
            × Moves V.log V.part token.old.me.0.seat x y
            × (marks ≡ V.marks_in (V.log y))) }
        ensures seat { (token.new.table_id ≡ token.old.table_id) × (token.new.id ≡ token.old.id) }
        ensures raised { HoldsValue token.old.me (λ y. token.new.me
            ≡ (raised V.log V.part token.old.me.0 y, token.old.me.1)) }
    {
        self.table.shared.fetch_max::<Raise>(token, DURABLE, marks);
    }

    // Puts the value back and gives the turn, in one step, and wakes one that may sleep.
    fn give_turn(&self, token: &mut Seat<V, View<V, V::Part, V::Entry>>)
        requires lock { token.old.table_id ≡ self.now.table }
        requires held { HoldsValue token.old.me (λ x. token.old.me.0.holds ≡ Some x) }
        ensures seat { (token.new.table_id ≡ token.old.table_id) × (token.new.id ≡ token.old.id) }
        ensures given { token.new.me ≡ (holding token.old.me.0 None, []) }
    {
        let shared = &self.table.shared;
        if shared.swap::<Give>(token, TURN, FREE) == WAITED {
            shared.wake_one(TURN);
        }
    }
}
