//! Playing the lines of a script.
ghost use Rattle.std.specs.Prelude.{◌≡◌, ◌≤◌, if◌then◌else◌, true, false, IfOk, OnOk, MatchOption};
ghost use Rattle.f2_model.specs.Step.{IsSeat, MOUNT_SEAT as mount_seat};
ghost use Rattle.f2_model.specs.declared.events.Answer.TheVariants as answers;
ghost use Rattle.f2_model.specs.declared.events.Event.TheVariants as events;
ghost use Rattle.f2_model.specs.declared.replies.Reply.TheVariants as replies;
ghost use Rattle.f2_model.specs.declared.replies.Step.TheVariants as steps;
ghost use Rattle.f2_reference.specs.Events.{IsSeated};
ghost use Rattle.f2_script.specs.declared.script.Line.TheVariants as verb;
ghost use Rattle.f2_play.specs.Calls.{Draws, Generates, Goes, IsCall, is_fine as is_fine_step, is_ok as is_ok_reply, is_over};
ghost use Rattle.f2_play.specs.Lines.{live_where_up, tree_shown};
ghost use Rattle.f2_reference_run.specs.Chosen.{PlaysOn};
ghost use Rattle.f2_reference_run.specs.Runs.{IsPlayed, IsSaying, Leads, SaysOn, stops};
ghost use Rattle.f2_reference_run.specs.Stages.{Comes, ends_by_flush as is_end_by_flush, flushed_by, is_flush as is_flush_step, least, oldest, picked};

use crate::stops::Stop;
use f2_model::{Answer, Begun, Event, MOUNT_SEAT, Mode, Reply, Request, Step, Tick};
use f2_reference::{Choices, Machine, MarksKept};
use f2_script::{
    Line, begun_text, counted_text, found_text, mounted_text, next_call, reply_text, step_text,
    tick_text, tree_text, unmounted_text,
};
use std::alloc::{AllocError, Global};
use std::marker::Model;

/// A call makes fewer events than this: one for each page, two for each direct node, and four more.
const MOST_EVENTS: u32 = 131_072;

/// What a machine is told before the first crash: the acknowledged marks alone, and no pending tree.
const LEAST: Choices = Choices {
    marks: MarksKept::Fewest,
    pending: false,
    blocks: 0,
};

/// A machine on which lines are played.
#[derive(Drop)]
pub struct Player {
    machine: Machine,
    /// What the next mount finds.
    choices: Choices,
    /// Whether a crash since the last mount has settled that.
    is_settled: bool,
    /// The place up to which the last flush left the marks.
    flushed: usize,
    alloc: Global,
}

impl Model for Player {
    ghost use Rattle.std.specs.Coded.{codes};
    ghost use Rattle.f2_reference.specs.contracts.machine.Machine as coded_machine;
    ghost use Rattle.f2_reference_run.specs.Stages.{Stage};

    ghost Value = { Stage };

    ghost coded = { Prim.hlevel (codes, coded_machine.the_row.coded) };

    ghost view = { λ p. record { seen = p.machine; choices = p.choices; is_settled = p.is_settled; flushed = p.flushed } };
}

/// Whether the text of a reply begins with `ok`.
fn is_ok(reply: &Reply) -> bool
    ensures { result ≡ is_ok_reply reply.now }
{
    matches!(
        reply,
        Reply::Done | Reply::Bytes(_) | Reply::Names(_) | Reply::Roll | Reply::Cp(_) | Reply::Synced
    )
}

/// Whether a call came to a reply whose text begins with `ok`.
fn is_fine(step: &Step) -> bool
    ensures { result ≡ is_fine_step step.now }
{
    match step {
        Step::Replied(reply) => is_ok(reply),
        _ => false,
    }
}

/// One for a call that came to a reply whose text begins with `ok`, and none for another.
fn fine_of(step: &Step) -> u32
    ensures value { result ≡ (if is_fine_step step.now then 1 else 0) }
    ensures most { result ≤ 1 }
{
    if is_fine(step) { 1 } else { 0 }
}

/// Whether the end of a call is a flush: the last one of an fsync, or of a checkpoint.
fn ends_by_flush(reply: &Reply) -> bool
    ensures { result ≡ is_end_by_flush reply.now }
{
    matches!(reply, Reply::Roll | Reply::Cp(_) | Reply::Synced)
}

/// Whether a step is a flush: an fsync's first one, or one that ends a call.
fn is_flush(step: &Step) -> bool
    ensures { result ≡ is_flush_step step.now }
{
    match step {
        Step::Flushed => true,
        Step::Replied(reply) => ends_by_flush(reply),
        _ => false,
    }
}

/// What the last flush left: the marks up to a place, and no pending tree.
fn oldest(place: usize) -> Choices
    ensures { result ≡ oldest place }
{
    Choices {
        marks: MarksKept::UpTo(place),
        pending: false,
        blocks: 0,
    }
}

impl Player {
    /// Plays on this machine.
    pub fn new(alloc: Global, machine: Machine) -> Player
        ensures { result ≡ record { seen = machine; choices = least; is_settled = false; flushed = 0 } }
    {
        Player {
            machine,
            choices: LEAST,
            is_settled: false,
            flushed: 0,
            alloc,
        }
    }

    /// Plays one line, and gives what it prints.
    pub fn play(&mut self, line: Line) -> Result<Vec<u8>, AllocError>
        requires { IsPlayed line }
        ensures { IfOk result (λ printed. PlaysOn self.old line printed.items self.new) }
    {
        match line {
            Line::Skipped => Ok(Vec::new(self.alloc)),
            Line::Tree => self.tree(),
            line => {
                let mut text = self.say(line)?;
                text.push(b'\n')?;
                Ok(text)
            }
        }
    }

    /// Plays a line that makes events, and gives what it says, without the end of the line.
    fn say(&mut self, line: Line) -> Result<Vec<u8>, AllocError>
        requires { IsSaying line }
        ensures { IfOk result (λ text. SaysOn self.old line text.items self.new) }
    {
        match line {
            Line::Call { seat, request } => self.say_call(seat, request),
            Line::Begin { seat, request } => self.say_begin(seat, request),
            Line::Go { seat } => self.say_go(seat),
            Line::Slot { seat } => self.say_slot(seat),
            Line::End { seat } => self.say_end(seat),
            Line::Tick => self.tick(),
            Line::Crash { pick } => self.crash(pick),
            Line::Mount => self.mount(),
            Line::Unmount => self.unmount(),
            Line::Gen { start, count } => self.generate(start, count),
            Line::Skipped
            | Line::Tree
            | Line::Mkfs { .. }
            | Line::Fail { .. }
            | Line::Stop { .. } => unreachable!(),
        }
    }

    /// A call, run to its reply or to where it has to wait.
    fn say_call(&mut self, seat: u8, request: Request) -> Result<Vec<u8>, AllocError>
        requires { IsSeat seat }
        ensures { IfOk result (λ text. SaysOn self.old (verb.Call seat request) text.items self.new) }
    {
        let last = self.call(seat, request)?;
        step_text(self.alloc, &last)
    }

    /// The beginning of a call.
    fn say_begin(&mut self, seat: u8, request: Request) -> Result<Vec<u8>, AllocError>
        requires { IsSeat seat }
        ensures { IfOk result (λ text. SaysOn self.old (verb.Begin seat request) text.items self.new) }
    {
        let begun = self.begin(seat, request)?;
        begun_text(self.alloc, &begun)
    }

    /// The next events of a seat's call, up to one that tells more than a position.
    fn say_go(&mut self, seat: u8) -> Result<Vec<u8>, AllocError>
        ensures { IfOk result (λ text. SaysOn self.old (verb.Go seat) text.items self.new) }
    {
        let last = self.go(seat, Stop::Told)?;
        step_text(self.alloc, &last)
    }

    /// The next event of a seat's call, where that draws a position.
    fn say_slot(&mut self, seat: u8) -> Result<Vec<u8>, AllocError>
        ensures { IfOk result (λ text. SaysOn self.old (verb.Slot seat) text.items self.new) }
    {
        let step = self.draw(seat)?;
        step_text(self.alloc, &step)
    }

    /// The rest of a seat's call.
    fn say_end(&mut self, seat: u8) -> Result<Vec<u8>, AllocError>
        ensures { IfOk result (λ text. SaysOn self.old (verb.End seat) text.items self.new) }
    {
        let last = self.go(seat, Stop::Over)?;
        step_text(self.alloc, &last)
    }

    /// The place up to which the last flush left the marks, once an event came to an answer.
    fn flushed_after(&self, answer: &Answer) -> Result<usize, AllocError>
        ensures { IfOk result (λ place. place ≡ flushed_by answer.now self.now.flushed self.now.seen.state) }
    {
        match answer {
            Answer::Found(_) => Ok(0),
            Answer::Stepped(step) if is_flush(step) => self.machine.written_place(),
            _ => Ok(self.flushed),
        }
    }

    /// One event. A flush leaves each mark that was written with everything before it.
    fn step(&mut self, event: Event) -> Result<Answer, AllocError>
        requires { IsSeated event }
        ensures { IfOk result (λ answer. Comes event answer self.old self.new) }
    {
        let answer = self.machine.step(event, self.choices)?;
        self.flushed = self.flushed_after(&answer)?;
        Ok(answer)
    }

    /// Begins a call.
    fn begin(&mut self, seat: u8, request: Request) -> Result<Begun, AllocError>
        requires { IsSeat seat }
        ensures { IfOk result (λ begun. Comes (events.Begin seat request) (answers.Began begun) self.old self.new) }
    {
        match self.step(Event::Begin { seat, request })? {
            Answer::Began(begun) => Ok(begun),
            _ => Err(AllocError),
        }
    }

    /// The next event of a seat's call.
    fn go_once(&mut self, seat: u8) -> Result<Step, AllocError>
        ensures { IfOk result (λ step. Comes (events.Go seat) (answers.Stepped step) self.old self.new) }
    {
        match self.step(Event::Go { seat })? {
            Answer::Stepped(step) => Ok(step),
            _ => Err(AllocError),
        }
    }

    /// Carries a seat's call on to where a line stops.
    fn go(&mut self, seat: u8, stop: Stop) -> Result<Step, AllocError>
        ensures { IfOk result (λ last. Leads (Goes (stops stop) seat last) self.old self.new) }
    {
        for _ in 0..MOST_EVENTS {
            let step = self.go_once(seat)?;
            if stop.is_at(&step) {
                return Ok(step);
            }
        }
        Err(AllocError)
    }

    /// The next event of a seat's call, which draws a position of the node log.
    fn draw_next(&mut self, seat: u8) -> Result<u32, AllocError>
        ensures { IfOk result (λ position. Comes (events.Go seat) (answers.Stepped (steps.Slot position)) self.old self.new) }
    {
        match self.go_once(seat)? {
            Step::Slot(position) => Ok(position),
            _ => Err(AllocError),
        }
    }

    /// The next event of a seat's call, where that draws a position of the node log.
    fn draw(&mut self, seat: u8) -> Result<Step, AllocError>
        ensures { IfOk result (λ step. Leads (Draws self.old.seen.state seat step) self.old self.new) }
    {
        if self.machine.draws_next(seat) {
            let position = self.draw_next(seat)?;
            Ok(Step::Slot(position))
        } else {
            Ok(Step::None)
        }
    }

    /// Begins a call and carries it on to its reply, or to where it has to wait.
    fn call(&mut self, seat: u8, request: Request) -> Result<Step, AllocError>
        requires { IsSeat seat }
        ensures { IfOk result (λ last. Leads (IsCall seat request last) self.old self.new) }
    {
        match self.begin(seat, request)? {
            Begun::Replied(reply) => Ok(Step::Replied(reply)),
            Begun::Going(_) => match self.go(seat, Stop::Over)? {
                Step::Replied(reply) => Ok(Step::Replied(reply)),
                Step::Again(position) => Ok(Step::Again(position)),
                _ => Err(AllocError),
            },
        }
    }

    /// Carries the checkpoint of a mount or an unmount on to its end.
    fn finish(&mut self) -> Result<(), AllocError>
        ensures { OnOk result (Leads (Goes is_over mount_seat (steps.Replied replies.Synced)) self.old self.new) }
    {
        match self.go(MOUNT_SEAT, Stop::Over)? {
            Step::Replied(Reply::Synced) => Ok(()),
            _ => Err(AllocError),
        }
    }

    /// One event of the flusher.
    fn tick_once(&mut self) -> Result<Tick, AllocError>
        ensures { IfOk result (λ tick. Comes events.Tick (answers.Ticked tick) self.old self.new) }
    {
        match self.step(Event::Tick)? {
            Answer::Ticked(tick) => Ok(tick),
            _ => Err(AllocError),
        }
    }

    /// The same, and what it says.
    fn tick(&mut self) -> Result<Vec<u8>, AllocError>
        ensures { IfOk result (λ text. SaysOn self.old verb.Tick text.items self.new) }
    {
        let tick = self.tick_once()?;
        Vec::from_slice(self.alloc, tick_text(tick))
    }

    /// What the next mount finds after a crash with this pick.
    fn choices_after(&self, pick: u64) -> Result<Choices, AllocError>
        ensures { IfOk result (λ choices. choices ≡ picked pick self.now) }
    {
        if self.is_settled {
            Ok(self.choices)
        } else if pick == 0 {
            Ok(oldest(self.flushed))
        } else {
            let place = self.machine.written_place()?;
            Ok(Choices {
                marks: MarksKept::UpTo(place),
                pending: true,
                blocks: 0,
            })
        }
    }

    /// A crash settles what the next mount finds.
    fn settle(&mut self, choices: Choices)
        ensures { self.new ≡ record self.old { choices = choices; is_settled = true } }
    {
        self.choices = choices;
        self.is_settled = true;
    }

    /// After a mount no crash has settled what the next one finds.
    fn unsettle(&mut self)
        ensures { self.new ≡ record self.old { is_settled = false } }
    {
        self.is_settled = false;
    }

    /// Power is lost.
    fn lose_power(&mut self) -> Result<(), AllocError>
        ensures { OnOk result (Comes events.Crash answers.Crashed self.old self.new) }
    {
        match self.step(Event::Crash)? {
            Answer::Crashed => Ok(()),
            _ => Err(AllocError),
        }
    }

    /// Loses power. A crash before this one, without a mount between, settled what remains.
    fn crash(&mut self, pick: u64) -> Result<Vec<u8>, AllocError>
        ensures { IfOk result (λ text. SaysOn self.old (verb.Crash pick) text.items self.new) }
    {
        let choices = self.choices_after(pick)?;
        self.lose_power()?;
        self.settle(choices);
        Vec::from_slice(self.alloc, b"ok")
    }

    /// Begins a mount, and gives how many rows it found, unless the volume is open.
    fn begin_mount(&mut self) -> Result<Option<u32>, AllocError>
        ensures { IfOk result (λ rows. MatchOption rows (Comes events.Mount answers.AlreadyMounted self.old self.new) (λ rows. Comes events.Mount (answers.Found rows) self.old self.new)) }
    {
        match self.step(Event::Mount)? {
            Answer::Found(rows) => Ok(Some(rows)),
            Answer::AlreadyMounted => Ok(None),
            _ => Err(AllocError),
        }
    }

    /// Opens the volume, with its checkpoint.
    fn mount(&mut self) -> Result<Vec<u8>, AllocError>
        ensures { IfOk result (λ text. SaysOn self.old verb.Mount text.items self.new) }
    {
        match self.begin_mount()? {
            Some(rows) => {
                self.finish()?;
                self.unsettle();
                found_text(self.alloc, rows)
            }
            None => Vec::from_slice(self.alloc, mounted_text()),
        }
    }

    /// Closes the volume, by a checkpoint.
    fn unmount(&mut self) -> Result<Vec<u8>, AllocError>
        ensures { IfOk result (λ text. SaysOn self.old verb.Unmount text.items self.new) }
    {
        match self.step(Event::Unmount)? {
            Answer::Began(Begun::Replied(refusal)) => reply_text(self.alloc, &refusal),
            Answer::Began(Begun::Going(_)) => {
                self.finish()?;
                Vec::from_slice(self.alloc, unmounted_text())
            }
            _ => Err(AllocError),
        }
    }

    /// What is printed of the tree.
    fn tree(&self) -> Result<Vec<u8>, AllocError>
        ensures { IfOk result (λ printed. printed.items ≡ tree_shown (live_where_up self.now.seen.state)) }
    {
        let plain = self.machine.plain();
        match plain.mode() {
            Mode::Up => tree_text(self.alloc, plain.live()),
            Mode::Shut | Mode::Mounting => Vec::from_slice(self.alloc, b"closed\n"),
        }
    }

    /// Makes the calls of a generator, and counts what they came to.
    fn generate(&mut self, start: u64, count: u32) -> Result<Vec<u8>, AllocError>
        ensures { IfOk result (λ text. SaysOn self.old (verb.Gen start count) text.items self.new) }
    {
        let mut x = start;
        let mut fine = 0;
        for _ in 0..count {
            let (next, seat, request) = next_call(self.alloc, x)?;
            let last = self.call(seat, request)?;
            fine += fine_of(&last);
            x = next;
        }
        counted_text(self.alloc, count, fine, count - fine)
    }
}
