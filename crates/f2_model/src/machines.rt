//! A volume as its callers see it.
ghost use Rattle.std.specs.Prelude.{◌≡◌, ℕ, ◌≤◌, length};
ghost use Rattle.f2_model.specs.History.{Account};
ghost use Rattle.f2_model.specs.Machine.{Advances, LeadsTo, is_half_used};
ghost use Rattle.f2_model.specs.Own.{acks_of};
ghost use Rattle.f2_model.specs.State.{State};
ghost use Rattle.f2_model.specs.declared.events.Answer.TheVariants as answers;
ghost use Rattle.f2_model.specs.declared.events.Event.TheVariants as events;
ghost use Rattle.f2_model.specs.declared.bounds.Limits.{Limits};

use crate::replies::{Begun, Step, Tick};
use crate::requests::Request;

/// A volume that takes one event at a time. From each state that it may be in, an event is a step of the abstract machine,
/// with the counts of faults that its disk had before and after it.
pub trait Machine {
    /// What its image grants.
    ghost limits: { Self → Limits };

    /// How many calls of its disk failed.
    ghost faults: { Self → ℕ };

    /// The state in which its history began, and the history of what was answered.
    ghost account: { Self → Account };

    /// The states that it may be in: which calls of a closed volume have met that it is closed, and which positions of the
    /// log are open, is in no history.
    ghost may_be: { Self → State → Type 0 };

    /// A seat, 1 to 9, begins a call. A call of one event is over with the answer.
    fn begin(&mut self, seat: u8, request: Request) -> Begun
        requires first { 1 ≤ seat }
        requires last { seat ≤ 9 }
        ensures granted { limits self.new ≡ limits self.old }
        ensures counted { faults self.old ≤ faults self.new }
        ensures step { (from : State) → may_be self.old from → Advances (limits self.old) (record { before = faults self.old; after = faults self.new }) from (may_be self.new) (account self.old) (account self.new) (events.Begin seat request) (answers.Began result) };

    /// The next event of a seat's call, or `Step::None` where it has none in flight.
    fn go(&mut self, seat: u8) -> Step
        requires first { 1 ≤ seat }
        requires last { seat ≤ 9 }
        ensures granted { limits self.new ≡ limits self.old }
        ensures counted { faults self.old ≤ faults self.new }
        ensures step { (from : State) → may_be self.old from → Advances (limits self.old) (record { before = faults self.old; after = faults self.new }) from (may_be self.new) (account self.old) (account self.new) (events.Go seat) (answers.Stepped result) };

    /// One event of the flusher.
    fn tick(&mut self) -> Tick
        ensures granted { limits self.new ≡ limits self.old }
        ensures counted { faults self.old ≤ faults self.new }
        ensures step { (from : State) → may_be self.old from → Advances (limits self.old) (record { before = faults self.old; after = faults self.new }) from (may_be self.new) (account self.old) (account self.new) events.Tick (answers.Ticked result) };

    /// The number of entries of its history. It may be in some state, and its history leads to each that it may be in.
    fn entries(&self) -> usize
        ensures number { result ≡ length (account self.now).entries }
        ensures somewhere { (state : State) × may_be self.now state }
        ensures led { (state : State) → may_be self.now state → LeadsTo (limits self.now) (faults self.now) (account self.now) state };

    /// How many fsyncs were acknowledged by the node log.
    fn marks(&self) -> u64
        ensures { result ≡ acks_of (account self.now).entries };

    /// Whether more than half of what a zone may be written between two checkpoints is used.
    fn half_used(&self) -> bool
        ensures { (state : State) → may_be self.now state → result ≡ is_half_used (limits self.now) state };
}
