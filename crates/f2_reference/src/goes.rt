//! The events of a call in flight.
ghost use Rattle.std.specs.Prelude.{◌≡◌, false, IfOk, OnErr, Some, None};
ghost use Rattle.std.specs.FinMap as map;
ghost use Rattle.f2_model.specs.State.{InPages, InNodes, InFsync, InCheck};
ghost use Rattle.f2_model.specs.Step as machine;
ghost use Rattle.f2_model.specs.declared.events.Answer.TheVariants as answers;
ghost use Rattle.f2_model.specs.declared.events.Event.TheVariants as events;
ghost use Rattle.f2_reference.specs.Choosing.{ComesTo};
ghost use Rattle.f2_reference.specs.Going.{IsAt, GoesTo};
ghost use Rattle.f2_reference.specs.Sound.{IsSound};
ghost use Rattle.f2_flights.specs.Parts.{drawn_of, progress_of};

use crate::choices::Choices;
use f2_flights::{Drawn, Flight, Part, Progress, Slot};
use f2_model::{Mode, Plan, Reply, Step};
use f2_reference_calls::{copy_row, copy_tree};
use f2_reference_state::Plain;
use std::alloc::{AllocError, Global};

/// The reply at the end of a checkpoint.
fn reply_of_plan(plan: Plan) -> Reply
    ensures { result ≡ machine.reply_of_plan plan }
{
    match plan {
        Plan::Cp(reason) => Reply::Cp(reason),
        Plan::Roll | Plan::Sync => Reply::Synced,
    }
}

/// The step that writes what was drawn.
fn step_of(drawn: Drawn) -> Step
    ensures { result ≡ machine.step_of (drawn_of drawn) }
{
    match drawn {
        Drawn::Node(offset) => Step::Node(offset),
        Drawn::Mark => Step::Mark,
    }
}

/// An fsync writes the block at its open position.
fn go_slot(plain: &mut Plain, seat: u8, ino: u32, progress: Progress, slot: Slot) -> Step
    requires flight { map.get plain.old.state.flights seat ≡ Some (InFsync ino (progress_of progress)) }
    requires slot { progress.slot ≡ Some slot }
    requires unshut { machine.is_shut plain.old.state.mode ≡ false }
    requires sound { IsSound plain.old }
    ensures ok { GoesTo plain.old plain.new seat result }
    ensures sound { IsSound plain.new }
{
    plain.submitted(seat, ino, progress);
    step_of(slot.drawn)
}

/// An fsync writes its least dirty page, or flushes.
fn go_pages(plain: &mut Plain, seat: u8, ino: u32) -> Result<Step, AllocError>
    requires at { IsAt plain.old.state seat ino InPages }
    requires sound { IsSound plain.old }
    ensures ok { IfOk result (λ step. GoesTo plain.old plain.new seat step) }
    ensures err { OnErr result (plain.new ≡ plain.old) }
    ensures sound { IsSound plain.new }
{
    match plain.dirty_pages().least_of(ino) {
        Some(page) => {
            plain.page_written(ino, page)?;
            Ok(Step::Page(page))
        }
        None => {
            plain.flushed(seat, ino)?;
            Ok(Step::Flushed)
        }
    }
}

/// An fsync draws a position of the node log for its least dirty direct node, or for its marked inode.
fn go_nodes(alloc: Global, plain: &mut Plain, seat: u8, ino: u32) -> Result<Step, AllocError>
    requires at { IsAt plain.old.state seat ino InNodes }
    requires sound { IsSound plain.old }
    ensures ok { IfOk result (λ step. GoesTo plain.old plain.new seat step) }
    ensures err { OnErr result (plain.new ≡ plain.old) }
    ensures sound { IsSound plain.new }
{
    match plain.dirty_nodes().least_of(ino) {
        Some(offset) => {
            let position = plain.node_drawn(seat, ino, offset)?;
            Ok(Step::Slot(position))
        }
        None => {
            let row = copy_row(alloc, plain.live().get(ino).ok_or(AllocError)?)?;
            let position = plain.mark_drawn(seat, ino, row)?;
            Ok(Step::Slot(position))
        }
    }
}

/// A checkpoint writes a block or its tail, or makes its last flush.
fn go_check(alloc: Global, plain: &mut Plain, seat: u8, plan: Plan) -> Result<Step, AllocError>
    requires flight { map.get plain.old.state.flights seat ≡ Some (InCheck plan) }
    requires unshut { machine.is_shut plain.old.state.mode ≡ false }
    requires sound { IsSound plain.old }
    ensures ok { IfOk result (λ step. GoesTo plain.old plain.new seat step) }
    ensures err { OnErr result (plain.new ≡ plain.old) }
    ensures sound { IsSound plain.new }
{
    if plain.pending().is_some() {
        let tree = copy_tree(alloc, plain.live())?;
        plain.completes(seat, plan, tree)?;
        return Ok(Step::Replied(reply_of_plan(plan)));
    }
    if plain.blocks() > 0 {
        plain.wrote_block();
        return Ok(Step::Block);
    }
    let tree = copy_tree(alloc, plain.live())?;
    plain.wrote_tail(seat, tree)?;
    Ok(Step::Tail)
}

/// An fsync waits for an open position below its mark's, or makes its last flush.
fn go_marked(plain: &mut Plain, seat: u8, ino: u32, progress: Progress) -> Result<Step, AllocError>
    requires flight { map.get plain.old.state.flights seat ≡ Some (InFsync ino (progress_of progress)) }
    requires part { progress.part ≡ Part.Marked }
    requires slot { progress.slot ≡ None }
    requires unshut { machine.is_shut plain.old.state.mode ≡ false }
    requires sound { IsSound plain.old }
    ensures ok { IfOk result (λ step. GoesTo plain.old plain.new seat step) }
    ensures err { OnErr result (plain.new ≡ plain.old) }
    ensures sound { IsSound plain.new }
{
    if let Some(position) = plain.flights().gap_below(progress.position) {
        return Ok(Step::Again(position));
    }
    if progress.place >= plain.marks().len() {
        return Err(AllocError);
    }
    plain.acknowledges(seat, ino, progress)?;
    Ok(Step::Replied(Reply::Roll))
}

/// One event of an fsync: an open position is written before anything else.
fn go_fsync(
    alloc: Global,
    plain: &mut Plain,
    seat: u8,
    ino: u32,
    progress: Progress,
) -> Result<Step, AllocError>
    requires flight { map.get plain.old.state.flights seat ≡ Some (InFsync ino (progress_of progress)) }
    requires unshut { machine.is_shut plain.old.state.mode ≡ false }
    requires sound { IsSound plain.old }
    ensures ok { IfOk result (λ step. GoesTo plain.old plain.new seat step) }
    ensures err { OnErr result (plain.new ≡ plain.old) }
    ensures sound { IsSound plain.new }
{
    if let Some(slot) = progress.slot {
        return Ok(go_slot(plain, seat, ino, progress, slot));
    }
    match progress.part {
        Part::Pages => go_pages(plain, seat, ino),
        Part::Nodes => go_nodes(alloc, plain, seat, ino),
        Part::Marked => go_marked(plain, seat, ino, progress),
    }
}

/// Whether the next event of an fsync draws a position of the node log.
fn draws(progress: Progress) -> bool
    ensures { result ≡ machine.draws (progress_of progress) }
{
    matches!(progress.part, Part::Nodes) && progress.slot.is_none()
}

/// Whether the next event of a seat's call draws a position of the node log.
pub(crate) fn draws_next(plain: &Plain, seat: u8) -> bool
    ensures { result ≡ machine.draws_next plain.now.state seat }
{
    if plain.mode() == Mode::Shut {
        return false;
    }
    match plain.flights().get(seat) {
        Some(Flight::Fsync { progress, .. }) => draws(progress),
        Some(Flight::Check { .. }) | None => false,
    }
}

/// One event of a seat's call. Where memory is refused nothing changed.
pub(crate) fn go(
    alloc: Global,
    plain: &mut Plain,
    seat: u8,
    choices: Choices,
) -> Result<Step, AllocError>
    requires sound { IsSound plain.old }
    ensures ok { IfOk result (λ step. ComesTo choices plain.old plain.new (events.Go seat) (answers.Stepped step)) }
    ensures err { OnErr result (plain.new ≡ plain.old) }
    ensures sound { IsSound plain.new }
{
    let Some(flight) = plain.flights().get(seat) else {
        return Ok(Step::None);
    };
    if plain.mode() == Mode::Shut {
        plain.leaves(seat);
        return Ok(Step::Replied(Reply::Closed));
    }
    match flight {
        Flight::Fsync { ino, progress } => go_fsync(alloc, plain, seat, ino, progress),
        Flight::Check { plan } => go_check(alloc, plain, seat, plan),
    }
}
