//! Running the lines of a script on a volume.
ghost use Rattle.std.specs.Prelude.{◌≡◌, ◌≤◌, ℕ, List, ◌∷◌, IfOk, IsSome, Ok};
ghost use Rattle.std.specs.List.{AllByRecursion};
ghost use Rattle.std.specs.Vec.Iter.{into_iter_items};
ghost use Rattle.std.specs.Io.KnownBytes.{Appends};
ghost use Rattle.f2_disk.specs.Faults.{Rose};
ghost use Rattle.f2_core.specs.Events.{IsMade, IsServed};
ghost use Rattle.f2_layout.specs.Refusal.{geometry_of};
ghost use Rattle.f2_model.specs.State.{State};
ghost use Rattle.f2_flat.specs.Flat.{limits_of};
ghost use Rattle.f2_model.specs.declared.events.Event.TheVariants as event;
ghost use Rattle.f2_script.specs.declared.script.Line.TheVariants as line;
ghost use Rattle.f2_script.specs.Replies.{reply_spelling};
ghost use Rattle.f2_script.specs.Steps.{made_spelling};
ghost use Rattle.f2_format.specs.Geometry.{node_third, data_third};
ghost use Rattle.f2_play.specs.Lines.{ended as line_of};
ghost use Rattle.f2_top.specs.Replay.{CountsFaults};
ghost use Rattle.f2_top.specs.Runs.{IsPlayable, IsPlayableScript, IsCalmMeter, StaysCalm, Comes, IsAt, PlaysOn, PlaysFrom, PlaysFlat, IsMounted, IsPlayed, IsDueLines, Ends, EndsScript};

use crate::output::put;
use f2_core::{Core, making_writes};
use f2_disk::{Bench, Sink};
use f2_layout::{BadGeometry, Geometry};
use f2_model::{Answer, Begun, Event, Reply, Request};
use f2_play::Status;
use f2_script::{Line, Lines, found_text, made_text, mounted_text, reply_text, tree_text};
use std::alloc::{AllocError, Global};
use std::vec::IntoIter;

/// The end of a line after a text.
fn ended(mut text: Vec<u8>) -> Result<Vec<u8>, AllocError>
    ensures { IfOk result (λ line. line.items ≡ line_of text.items) }
{
    text.push(b'\n')?;
    Ok(text)
}

/// The line that is printed for an image of these sizes.
pub(crate) fn mkfs_line(alloc: Global, geometry: &Geometry) -> Result<Vec<u8>, AllocError>
    ensures { IfOk result (λ text. text.items ≡ line_of (made_spelling (node_third geometry.now) (data_third geometry.now))) }
{
    ended(made_text(alloc, geometry.cn(), geometry.cd())?)
}

/// The line that is printed for a reply.
fn reply_line(alloc: Global, reply: &Reply) -> Result<Vec<u8>, AllocError>
    ensures { IfOk result (λ text. text.items ≡ line_of (reply_spelling reply.now)) }
{
    ended(reply_text(alloc, reply)?)
}

/// One event, for which the bench takes room before.
fn step<B: Bench>(core: &mut Core<B>, event: Event) -> Result<Answer, AllocError>
    requires served { IsServed event }
    requires calm { IsCalmMeter (B.meter core.old.disk) }
    ensures comes { IfOk result (λ answer. CountsFaults (B.meter core.old.disk)
        → Comes (B.contents core.old.disk) (B.contents core.new.disk) core.old core.new event answer) }
    ensures calm { StaysCalm (B.meter core.old.disk) (B.meter core.new.disk) }
    ensures geometry { core.new.geometry ≡ core.old.geometry }
{
    core.ready(core.writes())?;
    Ok(core.step(event))
}

/// A call, run to its reply, and what it prints. Want of memory has no text.
fn play_call<B: Bench>(
    alloc: Global,
    core: &mut Core<B>,
    seat: u8,
    request: Request,
) -> Result<Vec<u8>, AllocError>
    requires served { IsServed (event.Begin seat request) }
    requires calm { IsCalmMeter (B.meter core.old.disk) }
    ensures played { IfOk result (λ text. CountsFaults (B.meter core.old.disk) → PlaysOn (B.contents core.old.disk) (B.contents core.new.disk) core.old core.new (line.Call seat request) text.items) }
    ensures calm { StaysCalm (B.meter core.old.disk) (B.meter core.new.disk) }
    ensures geometry { core.new.geometry ≡ core.old.geometry }
{
    let Answer::Began(Begun::Replied(reply)) = step(core, Event::Begin { seat, request })? else {
        return Err(AllocError);
    };
    match reply {
        Reply::Memory => Err(AllocError),
        told => reply_line(alloc, &told),
    }
}

/// A mount, and what it prints. Want of memory has no text.
fn play_mount<B: Bench>(alloc: Global, core: &mut Core<B>) -> Result<Vec<u8>, AllocError>
    requires calm { IsCalmMeter (B.meter core.old.disk) }
    ensures played { IfOk result (λ text. CountsFaults (B.meter core.old.disk) → PlaysOn (B.contents core.old.disk) (B.contents core.new.disk) core.old core.new line.Mount text.items) }
    ensures calm { StaysCalm (B.meter core.old.disk) (B.meter core.new.disk) }
    ensures geometry { core.new.geometry ≡ core.old.geometry }
{
    match step(core, Event::Mount)? {
        Answer::Found(rows) => ended(found_text(alloc, rows)?),
        Answer::AlreadyMounted => ended(Vec::from_slice(alloc, mounted_text())?),
        _ => Err(AllocError),
    }
}

/// A crash that leaves the image of this pick, and what it prints.
fn play_crash<B: Bench>(alloc: Global, core: &mut Core<B>, pick: u64) -> Result<Vec<u8>, AllocError>
    ensures played { IfOk result (λ text. PlaysOn (B.contents core.old.disk) (B.contents core.new.disk) core.old core.new (line.Crash pick) text.items) }
    ensures calm { IsCalmMeter (B.meter core.old.disk) → StaysCalm (B.meter core.old.disk) (B.meter core.new.disk) }
    ensures geometry { core.new.geometry ≡ core.old.geometry }
{
    core.crash(pick)?;
    reply_line(alloc, &Reply::Done)
}

/// What is printed of the tree.
fn play_tree<B: Bench>(alloc: Global, core: &Core<B>) -> Result<Vec<u8>, AllocError>
    ensures { IfOk result (λ text. PlaysOn (B.contents core.now.disk) (B.contents core.now.disk) core.now core.now line.Tree text.items) }
{
    match core.tree() {
        Some(tree) => tree_text(alloc, tree),
        None => Vec::from_slice(alloc, b"closed\n"),
    }
}

/// Runs a line, and gives what it prints.
fn play_line<B: Bench>(alloc: Global, core: &mut Core<B>, line: Line) -> Result<Vec<u8>, AllocError>
    requires playable { IsPlayable line }
    requires calm { IsCalmMeter (B.meter core.old.disk) }
    ensures played { IfOk result (λ text. CountsFaults (B.meter core.old.disk) → PlaysOn (B.contents core.old.disk) (B.contents core.new.disk) core.old core.new line text.items) }
    ensures calm { StaysCalm (B.meter core.old.disk) (B.meter core.new.disk) }
    ensures geometry { core.new.geometry ≡ core.old.geometry }
{
    match line {
        Line::Call { seat, request } => play_call(alloc, core, seat, request),
        Line::Crash { pick } => play_crash(alloc, core, pick),
        Line::Mount => play_mount(alloc, core),
        Line::Tree => play_tree(alloc, core),
        _ => unreachable!(),
    }
}

/// Runs lines one after another, and writes what each prints as soon as it was run.
fn play_lines<K: Sink, B: Bench>(
    alloc: Global,
    sink: &mut K,
    mut core: Core<B>,
    mut lines: IntoIter<Line>,
) -> (Status, B)
    requires playable { AllByRecursion IsPlayable (into_iter_items lines) }
    requires calm { IsCalmMeter (B.meter core.disk) }
    ensures ends { CountsFaults (B.meter core.disk) → (from : State) → IsAt (B.contents core.disk) core from
        → (out : List ℕ) × Appends (K.written sink.old) (K.written sink.new) out
        × Ends (λ told. PlaysFrom told (limits_of core.geometry) from) (B.contents result.1) (into_iter_items lines) result.0 out }
    ensures played { IsPlayed result.0 }
    ensures later { K.faults sink.old ≤ K.faults sink.new }
    ensures cause { result.0 ≡ Status.SinkFault → Rose (K.faults sink.old) (K.faults sink.new) }
{
    while let Some(line) = lines.next() {
        let Ok(text) = play_line(alloc, &mut core, line) else {
            return (Status::Memory, core.into_disk());
        };
        if put(sink, text.as_slice()).is_err() {
            return (Status::SinkFault, core.into_disk());
        }
    }
    (Status::Done, core.into_disk())
}

/// Makes an image with the root alone on a bench that begins anew. Where memory is refused the bench comes back.
fn make<B: Bench>(alloc: Global, mut bench: B, geometry: &Geometry) -> Result<Core<B>, B>
    ensures made { IfOk result (λ core. IsMade geometry.now (B.contents core.disk) core) }
    ensures tells { IfOk result (λ core. IsSome (B.contents core.disk)) }
    ensures calm { IfOk result (λ core. StaysCalm (B.meter bench) (B.meter core.disk)) }
{
    if bench.start(geometry.blocks()).is_err() || bench.ready(making_writes(geometry)).is_err() {
        return Err(bench);
    }
    match Core::made(alloc, bench, *geometry) {
        Ok(core) => Ok(core),
        Err((_, bench)) => Err(bench),
    }
}

/// Makes an image on a bench and mounts a volume on it. Where memory is refused the bench comes back.
fn mount<B: Bench>(alloc: Global, bench: B, geometry: &Geometry) -> Result<Core<B>, B>
    ensures mounted { IfOk result (λ core. CountsFaults (B.meter bench) → IsMounted geometry.now (B.contents core.disk) core) }
    ensures calm { IfOk result (λ core. StaysCalm (B.meter bench) (B.meter core.disk)) }
{
    let mut core = make(alloc, bench, geometry)?;
    let Ok(Answer::Found(_)) = step(&mut core, Event::Mount) else {
        return Err(core.into_disk());
    };
    Ok(core)
}

/// Makes an image of these sizes, and runs lines on it.
fn play_image<K: Sink, B: Bench>(
    alloc: Global,
    sink: &mut K,
    bench: B,
    geometry: &Geometry,
    lines: IntoIter<Line>,
) -> (Status, B)
    requires sizes { geometry_of geometry.now ≡ Ok geometry.now }
    requires lines { AllByRecursion IsPlayable (into_iter_items lines) }
    ensures ends { CountsFaults (B.meter bench) → (out : List ℕ) × Appends (K.written sink.old) (K.written sink.new) out
        × Ends PlaysFlat (B.contents result.1) (line.Mkfs geometry.now.blocks geometry.now.nat ∷ into_iter_items lines) result.0 out }
    ensures played { IsPlayed result.0 }
    ensures later { K.faults sink.old ≤ K.faults sink.new }
    ensures cause { result.0 ≡ Status.SinkFault → Rose (K.faults sink.old) (K.faults sink.new) }
{
    let core = match mount(alloc, bench, geometry) {
        Ok(core) => core,
        Err(bench) => return (Status::Memory, bench),
    };
    let Ok(text) = mkfs_line(alloc, geometry) else {
        return (Status::Memory, core.into_disk());
    };
    if put(sink, text.as_slice()).is_err() {
        return (Status::SinkFault, core.into_disk());
    }
    play_lines(alloc, sink, core, lines)
}

/// Runs the lines of a script on a bench, which comes back.
pub(crate) fn play<K: Sink, B: Bench>(
    alloc: Global,
    sink: &mut K,
    bench: B,
    lines: Lines,
) -> (Status, B)
    requires playable { IsPlayableScript lines }
    ensures ends { CountsFaults (B.meter bench) → (out : List ℕ) × Appends (K.written sink.old) (K.written sink.new) out
        × EndsScript (B.contents result.1) lines result.0 out }
    ensures due { IsDueLines lines result.0 }
    ensures later { K.faults sink.old ≤ K.faults sink.new }
    ensures cause { result.0 ≡ Status.SinkFault → Rose (K.faults sink.old) (K.faults sink.new) }
{
    let mut lines = lines.into_vec().into_iter();
    match lines.next() {
        None => (Status::Done, bench),
        Some(Line::Mkfs { blocks, nat }) => match Geometry::new(blocks, nat) {
            Ok(geometry) => play_image(alloc, sink, bench, &geometry, lines),
            Err(BadGeometry { limit, value }) => (Status::Geometry { limit, value }, bench),
        },
        Some(_) => unreachable!(),
    }
}
