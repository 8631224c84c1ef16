//! The machine.
ghost use Rattle.std.specs.Prelude.{◌≡◌, ◌≤◌, IfOk, OnErr};
ghost use Rattle.f2_model.specs.Step.{draws_next};
ghost use Rattle.f2_reference.specs.Choosing.{ComesTo};
ghost use Rattle.f2_reference.specs.Events.{IsSeated};
ghost use Rattle.f2_reference.specs.Sound.{IsPlain, made_by};
ghost use Rattle.f2_reference.specs.Written.{written_place};
ghost use Rattle.f2_spans.specs.Spans.{MOST_SIZE};

use crate::begins::begin;
use crate::choices::{Choices, MarksKept};
use crate::goes::{draws_next, go};
use crate::mounts::{mount, unmount, upgrade};
use crate::ticks::tick;
use crate::written::written_place;
use f2_model::{Answer, Event, Format, Limits, MOUNT_SEAT, Tree};
use f2_reference_state::Plain;
use std::alloc::{AllocError, Global};
use std::marker::Model;

/// A plain machine: the state of a volume, and its history.
#[derive(Debug, Drop)]
pub struct Machine {
    plain: Plain,
    alloc: Global,
}

impl Model for Machine {
    ghost use Rattle.std.specs.Prelude.{ℕ};
    ghost use Rattle.std.specs.Coded.{Coded, codes, coded_ℕ, coded×};
    ghost use Rattle.std.specs.FinMap as map;
    ghost use Rattle.std.specs.FinSet as set;
    ghost use Rattle.std.specs.Ordering.{nat_cmp};
    ghost use Rattle.f2_model.specs.State as state;
    ghost use Rattle.f2_model.specs.contracts.trees.Tree as coded_tree;
    ghost use Rattle.f2_model.specs.contracts.rows.Row as coded_row;
    ghost use Rattle.f2_reference_state.specs.Seen.{Seen};
    ghost use Rattle.f2_reference.specs.Sound.{IsPlain};

    ghost Value = { Seen };

    ghost coded = { let seats : Coded (map.FinMap nat_cmp state.Flight) = map.code coded_ℕ (Prim.hlevel codes) in
        let pairs : Coded state.Pairs = set.code (coded× coded_ℕ coded_ℕ) in
        let inos : Coded state.Inos = set.code coded_ℕ in
        Prim.hlevel (codes, coded_tree.the_row.coded, coded_row.the_row.coded, seats, pairs, inos) };

    ghost view = { λ m. m.plain };

    ghost invariant = { λ m. IsPlain m.plain };
}

/// What a machine is made with: its mount finds no mark, and writes nothing before its tail.
const MAKING: Choices = Choices {
    marks: MarksKept::Fewest,
    pending: false,
    blocks: 0,
};

impl Machine {
    /// A machine that was just made: its tree is the root alone, and its first mount is done.
    pub fn made(alloc: Global, limits: Limits) -> Result<Machine, AllocError>
        requires { limits.size ≤ MOST_SIZE }
        ensures { IfOk result (λ machine. machine ≡ made_by limits) }
    {
        let live = Tree::root_alone(alloc)?;
        let base = Tree::root_alone(alloc)?;
        let plain = Plain::initial(alloc, limits, live, base, Format::Two, 1);
        let mut machine = Machine { plain, alloc };
        let _ = machine.step(Event::Mount, MAKING)?;
        let _ = machine.step(Event::Go { seat: MOUNT_SEAT }, MAKING)?;
        let _ = machine.step(Event::Go { seat: MOUNT_SEAT }, MAKING)?;
        Ok(machine)
    }

    /// The state and the history, which is a run of the abstract machine.
    pub fn plain(&self) -> &Plain
        ensures same { result.now ≡ self.now }
        ensures run { IsPlain result.now }
    {
        &self.plain
    }

    /// Whether the next event of a seat's call draws a position of the node log.
    pub fn draws_next(&self, seat: u8) -> bool
        ensures { result ≡ draws_next self.now.state seat }
    {
        draws_next(&self.plain, seat)
    }

    /// The place up to which each mark was written, with everything before it in the node log.
    pub fn written_place(&self) -> Result<usize, AllocError>
        ensures { IfOk result (λ place. place ≡ written_place self.now.state) }
    {
        written_place(self.alloc, &self.plain)
    }

    /// One event; a call begins from a seat, 1 to 9. Where memory is refused nothing changed.
    pub fn step(&mut self, event: Event, choices: Choices) -> Result<Answer, AllocError>
        requires { IsSeated event }
        ensures ok { IfOk result (λ answer. ComesTo choices self.old self.new event answer) }
        ensures err { OnErr result (self.new ≡ self.old) }
    {
        match event {
            Event::Begin { seat, request } => {
                begin(self.alloc, &mut self.plain, seat, request, choices).map(Answer::Began)
            }
            Event::Go { seat } => go(self.alloc, &mut self.plain, seat, choices).map(
                Answer::Stepped,
            ),
            Event::Tick => tick(self.alloc, &mut self.plain, choices).map(Answer::Ticked),
            Event::Mount => mount(self.alloc, &mut self.plain, choices),
            Event::Unmount => unmount(&mut self.plain, choices).map(Answer::Began),
            Event::Upgrade => upgrade(&mut self.plain, choices).map(Answer::Began),
            Event::Crash => {
                self.plain.crashes()?;
                Ok(Answer::Crashed)
            }
        }
    }
}
