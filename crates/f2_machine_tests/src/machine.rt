//! What a volume owes its callers can be kept, and is enough for a caller to go on from.
//!
//! The smallest volume that keeps it is one that was never opened, so each of its calls has one answer.
ghost use Rattle.std.specs.Prelude.{◌≡◌, ◌≤◌, [], ◌∷◌, length};
ghost use Rattle.f2_machine_tests.specs.Closed.{never_opened, no_past};
ghost use Rattle.f2_machine_tests.specs.Comes.{Comes};
ghost use Rattle.f2_model.specs.Machine.{LeadsTo, is_half_used};
ghost use Rattle.f2_model.specs.Own.{acks_of};
ghost use Rattle.f2_model.specs.State.{State};
ghost use Rattle.f2_model.specs.declared.events.Answer.TheVariants as answers;
ghost use Rattle.f2_model.specs.declared.events.Event.TheVariants as events;

use f2_model::{Begun, Limits, Machine, Reply, Request, Step, Tick};

const LIMITS: Limits = Limits {
    nodes: 9,
    data_blocks: 30,
    nids: 455,
    size: 4_329_690_886_144,
};

/// A volume that is closed and was never opened.
#[derive(Drop)]
struct Closed {
    limits: Limits,
}

impl Machine for Closed {
    ghost limits = { λ closed. closed.limits };

    ghost faults = { λ _. 0 };

    ghost account = { λ _. no_past };

    ghost may_be = { λ _ state. state ≡ never_opened };

    fn begin(&mut self, _seat: u8, _request: Request) -> Begun {
        Begun::Replied(Reply::Closed)
    }

    fn go(&mut self, _seat: u8) -> Step {
        Step::None
    }

    fn tick(&mut self) -> Tick {
        Tick::Closed
    }

    fn entries(&self) -> usize {
        0
    }

    fn marks(&self) -> u64 {
        0
    }

    fn half_used(&self) -> bool {
        false
    }
}

/// What came of one call of each kind.
#[derive(Drop)]
struct Came {
    begun: Begun,
    step: Step,
    tick: Tick,
    entries: usize,
    marks: u64,
    half_used: bool,
}

/// Makes one call of each kind, the three events first: a seat's call begins and goes on, and the flusher ticks.
fn call_each<M: Machine>(machine: &mut M, seat: u8, request: Request) -> Came
    requires first { 1 ≤ seat }
    requires last { seat ≤ 9 }
    // The answers are those of a run of the abstract machine, and the history goes on by what the run left.
    ensures came { (from : State) → M.may_be machine.old from →
        Comes (M.limits machine.old) (record { before = M.faults machine.old; after = M.faults machine.new })
        from (M.may_be machine.new) (M.account machine.old) (M.account machine.new)
        (events.Begin seat request ∷ events.Go seat ∷ events.Tick ∷ [])
        (answers.Began result.begun ∷ answers.Stepped result.step ∷ answers.Ticked result.tick ∷ []) }
    ensures led { (state : State) → M.may_be machine.new state →
        LeadsTo (M.limits machine.new) (M.faults machine.new) (M.account machine.new) state }
    ensures number { result.entries ≡ length (M.account machine.new).entries }
    ensures marks { result.marks ≡ acks_of (M.account machine.new).entries }
    ensures half { (state : State) → M.may_be machine.new state →
        result.half_used ≡ is_half_used (M.limits machine.new) state }
{
    let begun = machine.begin(seat, request);
    let step = machine.go(seat);
    let tick = machine.tick();
    Came {
        begun,
        step,
        tick,
        entries: machine.entries(),
        marks: machine.marks(),
        half_used: machine.half_used(),
    }
}

fn a_closed_volume_answers() -> bool {
    let mut closed = Closed { limits: LIMITS };
    let came = call_each(&mut closed, 1, Request::Sync);
    let mut holds = matches!(came.begun, Begun::Replied(Reply::Closed));
    holds &= matches!(came.step, Step::None);
    holds &= came.tick == Tick::Closed;
    holds &= (came.entries, came.marks, came.half_used) == (0, 0, false);
    holds
}

#[test]
fn all_of_machine(rt: HostRuntime) {
    assert!(rt; a_closed_volume_answers());
}
