//! Calls begin.
ghost use Rattle.std.specs.Prelude.{◌≡◌, ◌≢◌, ℕ, ◌-◌, ◌<◌, List, [], ◌∷◌, true, false, None, IfOk, OnOk, OnErr};
ghost use Rattle.f2_model.specs.Call as calls;
ghost use Rattle.std.specs.List.{find, range_with_len};
ghost use Rattle.f2_laws.specs.Room.{IsLeastFreeIno};
ghost use Rattle.f2_model.specs.Step as machine;
ghost use Rattle.f2_model.specs.Tree as tree;
ghost use Rattle.f2_model.specs.declared.events.Answer.TheVariants as answers;
ghost use Rattle.f2_model.specs.declared.events.Event.TheVariants as events;
ghost use Rattle.f2_model.specs.declared.histories.Entry.TheVariants as entry;
ghost use Rattle.f2_model.specs.declared.replies.Begun.TheVariants as begun;
ghost use Rattle.f2_model.specs.declared.replies.Plan.TheVariants as plans;
ghost use Rattle.f2_reference.specs.Begins.{BeginsBy, ServesAtOnce, TookEffect, both_rows, file_to_sync, ino_of, is_unused, rows_changed};
ghost use Rattle.f2_reference.specs.Choosing.{ComesTo};
ghost use Rattle.f2_reference.specs.Sound.{IsSound};
ghost use Rattle.f2_reference_calls.specs.Given.{WritesWithin};
ghost use Rattle.f2_spans.specs.Spans.{MOST_SIZE};
ghost use Rattle.f2_reference_state.specs.Seen.{told, after_turn};

use crate::choices::Choices;
use f2_model::{
    Begun, BoxedRequest, MOST_ENTRIES, Mode, Path, Plan, Reason, Reply, Request, Row, Tree,
};
use f2_reference_calls::{
    answer, copy_row, effect, refusal, removed, space_refusal, touched, walk,
};
use f2_reference_reasons::fallback;
use f2_reference_state::{Call, Plain};
use std::alloc::{AllocError, Global};

/// The least number that an inode may have.
const FIRST_INO: u32 = 4;

/// Whether the volume is open.
fn is_up(plain: &Plain) -> bool
    ensures { result ≡ machine.is_up plain.now.state.mode }
{
    matches!(plain.mode(), Mode::Up)
}

/// The seat that keeps a seat from beginning a call: itself, where it has one in flight, else the one that makes a
/// checkpoint.
fn barring_seat(plain: &Plain, seat: u8) -> Option<u8>
    ensures { result ≡ machine.barring_seat plain.now.state seat }
{
    if plain.flights().get(seat).is_some() {
        Some(seat)
    } else {
        plain.flights().checking()
    }
}

/// The seat that has the row at the end of a path in fsync.
fn freezing_at(plain: &Plain, path: &Path) -> Option<u8>
    ensures { result ≡ machine.freezing_walked plain.now.state (tree.walk plain.now.state.live path.now) }
{
    match walk(plain.live(), path.as_slice()) {
        Ok(row) => plain.flights().freezing(row.ino),
        Err(_) => None,
    }
}

/// The seat whose fsync keeps a call from changing, moving, removing or fsyncing its file.
fn freezing(plain: &Plain, request: &Request) -> Option<u8>
    ensures { result ≡ machine.freezing plain.now.state request.now }
{
    match request {
        Request::Write { path, .. }
        | Request::Truncate { path, .. }
        | Request::Unlink { path }
        | Request::Fsync { path } => freezing_at(plain, path),
        Request::Rename { from, .. } => freezing_at(plain, from),
        _ => None,
    }
}

/// Whether no row of the tree or the base has a number, and no node of the node log.
fn is_free(plain: &Plain, ino: u32) -> bool
    ensures { result ≡ is_unused plain.now.state ino }
{
    plain.live().get(ino).is_none()
        && plain.base().get(ino).is_none()
        && !plain.logged().contains(ino)
}

/// The least number that a new row may get, where there is one: no row of the tree or the base has it, and no node
/// of the node log.
fn least_free_ino(plain: &Plain) -> Option<u32>
    ensures { result ≡ find (is_unused plain.now.state) (range_with_len 4 (plain.now.limits.nids - 4)) }
{
    (FIRST_INO..plain.limits().nids).find(|ino| is_free(plain, *ino))
}

/// A call is answered, and changes nothing.
fn answer_alone(
    plain: &mut Plain,
    seat: u8,
    request: BoxedRequest,
    reply: Reply,
) -> Result<Begun, AllocError>
    ensures replied { IfOk result (λ answer. answer ≡ begun.Replied reply) }
    ensures ok { OnOk result (plain.new ≡ after_turn plain.old (machine.told_at_once plain.old.state seat request reply [] plain.old.state)) }
    ensures err { OnErr result (plain.new ≡ plain.old) }
{
    let outcome = reply.outcome();
    plain.did(Call {
        seat,
        request,
        outcome,
    })?;
    Ok(Begun::Replied(reply))
}

/// A call adds a row, under the least free ino.
///
/// Where no number is free it is answered like want of memory; no tree that fits its zone leaves none free.
fn add_row(alloc: Global, plain: &mut Plain, call: Call) -> Result<(), AllocError>
    requires sound { IsSound plain.old }
    requires unrefused { calls.refusal plain.old.limits plain.old.state.live call.request ≡ None }
    ensures ok { OnOk result ((ino : ℕ) × IsLeastFreeIno plain.old.limits plain.old.state ino × (plain.new ≡ told plain.old (entry.Did call.seat call.request call.outcome ∷ []) (ino ∷ []) (record plain.old.state { live = calls.effect plain.old.state.live call.request ino }))) }
    ensures err { OnErr result (plain.new ≡ plain.old) }
{
    let Some(ino) = least_free_ino(plain) else {
        return Err(AllocError);
    };
    let after = effect(alloc, plain.limits(), plain.live(), call.request.get(), ino)?;
    plain.called(call, Some(ino), after)
}

/// Copies of the rows at the end of a path in two trees.
fn rows_at(
    alloc: Global,
    before: &Tree,
    after: &Tree,
    path: &Path,
) -> Result<Option<(Row, Row)>, AllocError>
    ensures { IfOk result (λ rows. rows ≡ both_rows (tree.walk before.now path.now) (tree.walk after.now path.now)) }
{
    match (walk(before, path.as_slice()), walk(after, path.as_slice())) {
        (Ok(old), Ok(new)) => Ok(Some((copy_row(alloc, old)?, copy_row(alloc, new)?))),
        _ => Ok(None),
    }
}

/// A call changes the pages of a file, of which the rows before and after it are given, where both are there.
fn change_pages(
    alloc: Global,
    plain: &mut Plain,
    call: Call,
    rows: Option<(Row, Row)>,
    after: Tree,
) -> Result<(), AllocError>
    requires { WritesWithin MOST_SIZE call.request }
    ensures ok { OnOk result (plain.new ≡ told plain.old (entry.Did call.seat call.request call.outcome ∷ []) [] (record (rows_changed plain.old.state call.request rows) { live = after })) }
    ensures err { OnErr result (plain.new ≡ plain.old) }
{
    match rows {
        Some((old, new)) => {
            let touched = touched(alloc, &old, call.request.get())?;
            let removed = removed(alloc, &old, call.request.get())?;
            plain.called_on_pages(
                call,
                &old,
                &new,
                touched.as_slice(),
                removed.as_slice(),
                after,
            )
        }
        None => plain.called(call, None, after),
    }
}

/// The ino of the row at the end of a path.
fn ino_at(rows: &Tree, path: &Path) -> Option<u32>
    ensures { result ≡ ino_of (tree.walk rows.now path.now) }
{
    match walk(rows, path.as_slice()) {
        Ok(row) => Some(row.ino),
        Err(_) => None,
    }
}

/// A call takes effect that neither its paths nor an fsync nor its space refuse; the tree after it is given, which
/// has the greatest number for the ino of a new row.
fn take_effect(alloc: Global, plain: &mut Plain, call: Call, after: Tree) -> Result<(), AllocError>
    requires sound { IsSound plain.old }
    requires unrefused { calls.refusal plain.old.limits plain.old.state.live call.request ≡ None }
    requires after { after ≡ calls.effect plain.old.state.live call.request plain.old.limits.nids }
    ensures ok { OnOk result (TookEffect plain.old plain.new call) }
    ensures err { OnErr result (plain.new ≡ plain.old) }
{
    match call.request.get() {
        Request::Create { .. } | Request::Mkdir { .. } => add_row(alloc, plain, call),
        Request::Write { path, .. } | Request::Truncate { path, .. } => {
            let rows = rows_at(alloc, plain.live(), &after, path)?;
            change_pages(alloc, plain, call, rows, after)
        }
        Request::Unlink { path } => match ino_at(plain.live(), path) {
            Some(ino) => plain.called_on_gone(call, ino, after),
            None => plain.called(call, None, after),
        },
        Request::Rename { from, .. } => match ino_at(plain.live(), from) {
            Some(ino) => plain.called_on_moved(call, ino, after),
            None => plain.called(call, None, after),
        },
        _ => plain.called(call, None, after),
    }
}

/// A call of one event that neither its paths nor an fsync refuse.
fn call_at_once(
    alloc: Global,
    plain: &mut Plain,
    seat: u8,
    request: BoxedRequest,
    choices: Choices,
) -> Result<Begun, AllocError>
    requires sound { IsSound plain.old }
    requires unrefused { calls.refusal plain.old.limits plain.old.state.live request ≡ None }
    ensures ok { IfOk result (λ begun. BeginsBy choices plain.old plain.new request begun (ServesAtOnce plain.old.limits plain.old.state seat request)) }
    ensures err { OnErr result (plain.new ≡ plain.old) }
{
    let limits = plain.limits();
    let after = effect(alloc, limits, plain.live(), request.get(), limits.nids)?;
    if let Some(refused) = space_refusal(alloc, limits, &after)? {
        return answer_alone(plain, seat, request, refused);
    }
    let reply = answer(alloc, plain.live(), request.get())?;
    let outcome = reply.outcome();
    let call = Call {
        seat,
        request,
        outcome,
    };
    take_effect(alloc, plain, call, after)?;
    Ok(Begun::Replied(reply))
}

/// A checkpoint begins where nobody is in flight.
fn begin_check(
    plain: &mut Plain,
    seat: u8,
    request: BoxedRequest,
    plan: Plan,
    choices: Choices,
) -> Result<Begun, AllocError>
    requires check { plan ≢ plans.Roll }
    requires rowless { machine.adds_row request ≡ false }
    ensures ok { IfOk result (λ begun. BeginsBy choices plain.old plain.new request begun (machine.BeginsCheck plain.old.state seat request plan)) }
    ensures err { OnErr result (plain.new ≡ plain.old) }
{
    if let Some(by) = plain.flights().least() {
        return Ok(Begun::Replied(Reply::Busy { by }));
    }
    plain.begins_check(seat, request, plan, choices.blocks)?;
    Ok(Begun::Going(plan))
}

/// The ino of the file at the end of a path, and the reason for which an fsync of it makes a checkpoint.
fn file_to_sync(
    alloc: Global,
    plain: &Plain,
    path: &Path,
) -> Result<Result<(u32, Option<Reason>), Reply>, AllocError>
    ensures { IfOk result (λ file. file ≡ file_to_sync plain.now.limits plain.now.state (tree.walk plain.now.state.live path.now)) }
{
    match walk(plain.live(), path.as_slice()) {
        Ok(row) => Ok(Ok((row.ino, fallback(alloc, plain, row)?))),
        Err(refused) => Ok(Err(refused)),
    }
}

/// An fsync of the file that its path leads to rolls forward, or begins a checkpoint for a reason.
fn begin_fsync(
    plain: &mut Plain,
    seat: u8,
    request: BoxedRequest,
    file: Result<(u32, Option<Reason>), Reply>,
    choices: Choices,
) -> Result<Begun, AllocError>
    requires { machine.adds_row request ≡ false }
    ensures ok { (path : List (List ℕ)) → file ≡ file_to_sync plain.old.limits plain.old.state (tree.walk plain.old.state.live path) → IfOk result (λ begun. BeginsBy choices plain.old plain.new request begun (machine.BeginsFsync plain.old.limits plain.old.state seat request (tree.walk plain.old.state.live path))) }
    ensures err { OnErr result (plain.new ≡ plain.old) }
{
    match file {
        Ok((ino, reason)) => match reason {
            None => {
                plain.begins_fsync(seat, request, ino)?;
                Ok(Begun::Going(Plan::Roll))
            }
            Some(reason) => begin_check(plain, seat, request, Plan::Cp(reason), choices),
        },
        Err(refused) => answer_alone(plain, seat, request, refused),
    }
}

/// A call that neither its paths nor an fsync refuse.
fn serve(
    alloc: Global,
    plain: &mut Plain,
    seat: u8,
    request: BoxedRequest,
    choices: Choices,
) -> Result<Begun, AllocError>
    requires sound { IsSound plain.old }
    requires unrefused { calls.refusal plain.old.limits plain.old.state.live request ≡ None }
    ensures ok { IfOk result (λ begun. BeginsBy choices plain.old plain.new request begun (machine.Serves plain.old.limits machine.calm plain.old.state seat request)) }
    ensures err { OnErr result (plain.new ≡ plain.old) }
{
    match request.get() {
        Request::Fsync { path } => {
            let file = file_to_sync(alloc, plain, path)?;
            begin_fsync(plain, seat, request, file, choices)
        }
        Request::Sync => begin_check(plain, seat, request, Plan::Sync, choices),
        _ => call_at_once(alloc, plain, seat, request, choices),
    }
}

/// A call begins of a seat that nobody bars: the first test that holds decides. Where memory is refused nothing changed.
fn begin_free(
    alloc: Global,
    plain: &mut Plain,
    seat: u8,
    request: BoxedRequest,
    choices: Choices,
) -> Result<Begun, AllocError>
    requires up { machine.is_up plain.old.state.mode ≡ true }
    requires early { plain.old.state.entries < machine.MOST_ENTRIES }
    requires free { machine.barring_seat plain.old.state seat ≡ None }
    requires sound { IsSound plain.old }
    ensures ok { IfOk result (λ begun. BeginsBy choices plain.old plain.new request begun (machine.StepBegin plain.old.limits machine.calm plain.old.state seat request)) }
    ensures err { OnErr result (plain.new ≡ plain.old) }
    ensures sound { IsSound plain.new }
{
    if let Some(refused) = refusal(plain.limits(), plain.live(), request.get()) {
        return answer_alone(plain, seat, request, refused);
    }
    if let Some(by) = freezing(plain, request.get()) {
        return Ok(Begun::Replied(Reply::Busy { by }));
    }
    serve(alloc, plain, seat, request, choices)
}

/// A seat begins a call: the first test that holds decides. Where memory is refused nothing changed.
pub(crate) fn begin(
    alloc: Global,
    plain: &mut Plain,
    seat: u8,
    request: Request,
    choices: Choices,
) -> Result<Begun, AllocError>
    requires seat { machine.IsSeat seat }
    requires sound { IsSound plain.old }
    ensures ok { IfOk result (λ begun. ComesTo choices plain.old plain.new (events.Begin seat request) (answers.Began begun)) }
    ensures err { OnErr result (plain.new ≡ plain.old) }
    ensures sound { IsSound plain.new }
{
    if !is_up(plain) {
        return Ok(Begun::Replied(Reply::Closed));
    }
    if plain.entries() >= MOST_ENTRIES {
        return Ok(Begun::Replied(Reply::Spent));
    }
    if let Some(by) = barring_seat(plain, seat) {
        return Ok(Begun::Replied(Reply::Busy { by }));
    }
    let request = BoxedRequest::new(alloc, request)?;
    begin_free(alloc, plain, seat, request, choices)
}
