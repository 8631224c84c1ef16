//! The flusher.
ghost use Rattle.std.specs.Prelude.{◌≡◌, IfOk, OnErr, Some, None};
ghost use Rattle.f2_model.specs.Step as machine;
ghost use Rattle.f2_model.specs.declared.events.Answer.TheVariants as answers;
ghost use Rattle.f2_model.specs.declared.events.Event.TheVariants as events;
ghost use Rattle.f2_reference.specs.Choosing.{ComesTo};
ghost use Rattle.f2_reference.specs.Going.{MayTick, TicksTo};
ghost use Rattle.f2_reference.specs.Sound.{IsSound};

use crate::choices::Choices;
use f2_model::{MOST_ENTRIES, Mode, Tick};
use f2_reference_reasons::owed;
use f2_reference_state::Plain;
use std::alloc::{AllocError, Global};

/// The flusher writes a page where its zone has room.
fn tick_page(alloc: Global, plain: &mut Plain, page: (u32, u32)) -> Result<Tick, AllocError>
    requires may { MayTick plain.old.state }
    requires page { machine.least_thawed plain.old.state plain.old.state.dirty_pages ≡ Some page }
    requires sound { IsSound plain.old }
    ensures ok { IfOk result (λ tick. TicksTo plain.old plain.new tick) }
    ensures err { OnErr result (plain.new ≡ plain.old) }
    ensures sound { IsSound plain.new }
{
    let owed = owed(alloc, plain)?;
    if plain.data_writes() as u128 + owed.pages >= u128::from(plain.limits().data_blocks) {
        return Ok(Tick::Room);
    }
    plain.page_written(page.0, page.1)?;
    Ok(Tick::Data)
}

/// The flusher writes a direct node where its zone has room.
fn tick_node(alloc: Global, plain: &mut Plain, node: (u32, u32)) -> Result<Tick, AllocError>
    requires may { MayTick plain.old.state }
    requires no_page { machine.least_thawed plain.old.state plain.old.state.dirty_pages ≡ None }
    requires node { machine.least_thawed plain.old.state plain.old.state.dirty_nodes ≡ Some node }
    requires sound { IsSound plain.old }
    ensures ok { IfOk result (λ tick. TicksTo plain.old plain.new tick) }
    ensures err { OnErr result (plain.new ≡ plain.old) }
    ensures sound { IsSound plain.new }
{
    let owed = owed(alloc, plain)?;
    if plain.node_writes() as u128 + owed.nodes >= u128::from(plain.limits().nodes) {
        return Ok(Tick::Room);
    }
    plain.node_logged(node.0, node.1)?;
    Ok(Tick::Node)
}

/// One event of the flusher. Where memory is refused nothing changed.
pub(crate) fn tick(alloc: Global, plain: &mut Plain, choices: Choices) -> Result<Tick, AllocError>
    requires sound { IsSound plain.old }
    ensures ok { IfOk result (λ tick. ComesTo choices plain.old plain.new events.Tick (answers.Ticked tick)) }
    ensures err { OnErr result (plain.new ≡ plain.old) }
    ensures sound { IsSound plain.new }
{
    if plain.mode() != Mode::Up {
        return Ok(Tick::Closed);
    }
    if plain.entries() >= MOST_ENTRIES {
        return Ok(Tick::Spent);
    }
    if plain.flights().checking().is_some() {
        return Ok(Tick::Busy);
    }
    if plain.dirty_pages().is_empty() && plain.dirty_nodes().is_empty() {
        return Ok(Tick::Idle);
    }
    let frozen = plain.flights().frozen_inos(alloc)?;
    if let Some(page) = plain.dirty_pages().least_outside(frozen.as_slice()) {
        return tick_page(alloc, plain, page);
    }
    if let Some(node) = plain.dirty_nodes().least_outside(frozen.as_slice()) {
        return tick_node(alloc, plain, node);
    }
    Ok(Tick::Busy)
}
