//! A log of steps behind the lock.
ghost use Rattle.std.specs.Prelude.{◌≡◌, ◌++◌, ◌∷◌, [], ℕ, true, false};
ghost use Rattle.std.specs.Bool.{OnTrue};
ghost use Rattle.f2_seat_lock.specs.Map.{places, either_place};

use f2_seat_lock::*;
use std::collections::LinkedList;
use std::sync::Wait;
use std::test::*;
use std::thread;
use std::thread::Threads;

const STEPS: u32 = 20;

// Which seat made which step, in order. A step of seat 1 is a mark.
#[derive(Drop)]
struct Tally {
    steps: Vec<(u8, u32)>,
}

impl Parts for Tally {
    type Part = LinkedList<u32>;

    type Entry = (u8, u32);

    ghost use Rattle.f2_seat_lock.specs.Tally.{marks_of, marks_rise, steps_of};

    ghost part = { λ t. steps_of t.steps.items };

    ghost log = { λ t. t.steps.items };

    ghost marks_in = { marks_of };

    fn marks(&self) -> u64 {
        self.steps.iter().filter(|step| step.0 == 1).count() as u64
    }

    ghost never_falls = { marks_rise };
}

// Makes a step.
#[derive(Drop)]
struct Step {
    number: u32,
    done: bool,
}

impl Job<Tally> for Step {
    ghost use Rattle.std.specs.Prelude.{◌≡◌, ◌++◌, ◌∷◌, []};
    ghost use Rattle.std.specs.Bool.{OnTrue};

    ghost needs = { λ job seat part log. Unit {0} };

    ghost does = { λ seat job part log after new_part new_log. OnTrue after.done (new_log ≡ log ++ (seat, job.number) ∷ []) };

    fn run(&mut self, value: &mut Tally, seat: u8) {
        self.done = value.steps.push((seat, self.number)).is_ok();
    }
}

// Makes steps one after another.
fn make_steps<R: Wait>(rt: &R, lock: &SeatLock<Tally>, mut pass: Pass<Tally>) -> Pass<Tally>
    requires { pass.lock ≡ lock.now }
    ensures lock { result.lock ≡ lock.now }
    ensures places { places result.parts ≡ places pass.parts }
{
    for number in 0..STEPS {
        let mut step = Step {
            number,
            done: false,
        };
        lock.with(rt, &mut pass, &mut step);
    }
    pass
}

// Both passes make steps, each in a thread of its own, and are joined.
fn in_two_threads<R: Threads + Wait + Sync>(
    rt: &R,
    lock: &SeatLock<Tally>,
    first: Pass<Tally>,
    second: Pass<Tally>,
) -> Pass<Tally>
    requires { (first.lock ≡ lock.now) × (second.lock ≡ lock.now) }
    ensures lock { result.lock ≡ lock.now }
    ensures places { places result.parts ≡ either_place (places first.parts) (places second.parts) }
{
    let (mut first, second) = thread::join(
        rt,
        move || -> Pass<Tally>
            requires { first.lock ≡ lock.now }
            ensures { (result.lock ≡ first.lock) × (places result.parts ≡ places first.parts) }
        { make_steps(rt, lock, first) },
        move || -> Pass<Tally>
            requires { second.lock ≡ lock.now }
            ensures { (result.lock ≡ second.lock) × (places result.parts ≡ places second.parts) }
        { make_steps(rt, lock, second) },
    );
    lock.join(&mut first, second);
    first
}

// The seat made each step once, in order.
fn is_in_order(tally: &Tally, seat: u8) -> bool {
    let own = tally.steps.iter().filter(|step| step.0 == seat);
    own.map(|step| step.1).eq(0..STEPS)
}

#[test]
fn seats_step_beside_each_other(rt: HostRuntime) -> Result<(), Fail> {
    let empty = Tally {
        steps: Vec::new(rt.alloc()),
    };
    let Ok((lock, mut first)) = SeatLock::new(rt.alloc(), empty, 2) else {
        panic!(rt; "no memory")
    };
    let second = lock.split(&mut first);
    let all = in_two_threads(&rt, &lock, first, second);
    let tally = lock.close(all);
    assert_eq!(rt; tally.steps.len(), 2 * STEPS as usize);
    assert!(rt; is_in_order(&tally, 0) && is_in_order(&tally, 1));
    Ok(())
}

#[test]
fn durable_sees_others(rt: HostRuntime) -> Result<(), Fail> {
    let empty = Tally {
        steps: Vec::new(rt.alloc()),
    };
    let Ok((lock, mut first)) = SeatLock::new(rt.alloc(), empty, 2) else {
        panic!(rt; "no memory")
    };
    assert!(rt; first.seat() == 0 && first.left() == 1 && lock.durable(&mut first) == 0);
    let mut second = lock.split(&mut first);
    assert!(rt; second.seat() == 1 && second.left() == 0 && first.left() == 0);
    let mut step = Step {
        number: 7,
        done: false,
    };
    lock.with(&rt, &mut second, &mut step);
    assert!(rt; step.done && lock.durable(&mut first) == 1);
    lock.join(&mut first, second);
    Ok(())
}
