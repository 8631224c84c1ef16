//! Mounts and unmounts.
ghost use Rattle.std.specs.Prelude.{◌≡◌, ◌≤◌, All, IfOk, OnOk, OnErr, length, take, map as map_list};
ghost use Rattle.f2_model.specs.State as state;
ghost use Rattle.f2_model.specs.Step as machine;
ghost use Rattle.f2_model.specs.declared.events.Answer.TheVariants as answers;
ghost use Rattle.f2_model.specs.declared.events.Event.TheVariants as events;
ghost use Rattle.f2_reference.specs.Choosing.{ComesTo, place_left};
ghost use Rattle.f2_reference.specs.Going.{ClosesTo};
ghost use Rattle.f2_reference.specs.Sound.{IsFittingMark, IsSound};
ghost use Rattle.f2_reference_calls.specs.Given.{IsKeyed};
ghost use Rattle.f2_reference_state.specs.Parts.{mark_of};
ghost use Rattle.f2_reference_state.specs.Seen.{after_turn};

use crate::choices::{Choices, MarksKept};
use f2_model::{Answer, Begun, Format, Mode, Plan, Reply, Tree};
use f2_reference_calls::{copy_row, copy_tree};
use f2_reference_state::{Mark, Plain};
use std::alloc::{AllocError, Global};

/// A base with marked rows put in place, in order.
fn rolled(alloc: Global, base: &Tree, marks: &[Mark]) -> Result<Tree, AllocError>
    requires base { IsKeyed base.now }
    requires marks { All IsFittingMark (map_list mark_of marks.now) }
    ensures { IfOk result (λ tree. tree ≡ state.rolled base.now (map_list mark_of marks.now)) }
{
    let mut tree = copy_tree(alloc, base)?;
    for mark in marks {
        tree.put(copy_row(alloc, &mark.row)?)?;
    }
    Ok(tree)
}

/// The place up to which marks remain.
fn place_left(plain: &Plain, kept: MarksKept) -> usize
    requires { IsSound plain.now }
    ensures place { result ≡ place_left kept plain.now.state }
    ensures there { result ≤ length plain.now.state.marks }
{
    match kept {
        MarksKept::Fewest => plain.acknowledged(),
        MarksKept::UpTo(place) => plain.acknowledged().max(place.min(plain.marks().len())),
    }
}

/// A mount finds the base with the marks that are left to it.
fn find_marks(alloc: Global, plain: &mut Plain, choices: Choices) -> Result<Answer, AllocError>
    requires sound { IsSound plain.old }
    ensures told { IfOk result (λ answer. answer ≡ answers.Found (length (take (place_left choices.marks plain.old.state) plain.old.state.marks))) }
    ensures ok { OnOk result (plain.new ≡ record (after_turn plain.old (machine.found plain.old.state (state.base_up_to plain.old.state (place_left choices.marks plain.old.state)) 0)) { blocks = choices.blocks }) }
    ensures err { OnErr result (plain.new ≡ plain.old) }
{
    let count = place_left(plain, choices.marks);
    let rows = u32::try_from(count).map_err(|_| AllocError)?;
    let live = rolled(alloc, plain.base(), &plain.marks()[..count])?;
    plain.finds_marks(count, live, choices.blocks)?;
    Ok(Answer::Found(rows))
}

/// A mount begins. Where memory is refused nothing changed.
pub(crate) fn mount(
    alloc: Global,
    plain: &mut Plain,
    choices: Choices,
) -> Result<Answer, AllocError>
    requires sound { IsSound plain.old }
    ensures ok { IfOk result (λ answer. ComesTo choices plain.old plain.new events.Mount answer) }
    ensures err { OnErr result (plain.new ≡ plain.old) }
    ensures sound { IsSound plain.new }
{
    if plain.mode() != Mode::Shut {
        return Ok(Answer::AlreadyMounted);
    }
    match plain.pending() {
        Some(tree) if choices.pending => {
            let (base, live) = (copy_tree(alloc, tree)?, copy_tree(alloc, tree)?);
            plain.finds_pending(base, live, choices.blocks)?;
            Ok(Answer::Found(0))
        }
        _ => find_marks(alloc, plain, choices),
    }
}

/// The checkpoint of a format begins with which the volume is closed. Where memory is refused nothing changed.
fn close(plain: &mut Plain, format: Format, choices: Choices) -> Result<Begun, AllocError>
    requires sound { IsSound plain.old }
    ensures ok { IfOk result (λ begun. ClosesTo choices plain.old plain.new format begun) }
    ensures err { OnErr result (plain.new ≡ plain.old) }
    ensures sound { IsSound plain.new }
{
    if plain.mode() != Mode::Up {
        return Ok(Begun::Replied(Reply::Closed));
    }
    if let Some(by) = plain.flights().least() {
        return Ok(Begun::Replied(Reply::Busy { by }));
    }
    plain.begins_close(format, choices.blocks)?;
    Ok(Begun::Going(Plan::Sync))
}

/// An unmount begins, which keeps the format. Where memory is refused nothing changed.
pub(crate) fn unmount(plain: &mut Plain, choices: Choices) -> Result<Begun, AllocError>
    requires sound { IsSound plain.old }
    ensures ok { IfOk result (λ begun. ComesTo choices plain.old plain.new events.Unmount (answers.Began begun)) }
    ensures err { OnErr result (plain.new ≡ plain.old) }
    ensures sound { IsSound plain.new }
{
    let format = plain.format();
    close(plain, format, choices)
}

/// An upgrade begins, which sets the newer format. Where memory is refused nothing changed.
pub(crate) fn upgrade(plain: &mut Plain, choices: Choices) -> Result<Begun, AllocError>
    requires sound { IsSound plain.old }
    ensures ok { IfOk result (λ begun. ComesTo choices plain.old plain.new events.Upgrade (answers.Began begun)) }
    ensures err { OnErr result (plain.new ≡ plain.old) }
    ensures sound { IsSound plain.new }
{
    close(plain, Format::Two, choices)
}
