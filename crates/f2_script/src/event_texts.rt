//! What is printed for events, without the end of the line.
ghost use Rattle.std.specs.Prelude.{◌≡◌, IfOk};
ghost use Rattle.f2_script.specs.Steps.{plan_spelling, begun_spelling, step_spelling, tick_spelling, made_spelling, found_spelling, mounted_spelling, unmounted_spelling, counted_spelling};

use crate::reply_texts::{reason_word, reply_text};
use crate::texts::{push_argument, push_word, with_number, with_numbers};
use f2_model::{Begun, Plan, Step, Tick};
use std::alloc::{AllocError, Global};

fn plan_text(alloc: Global, plan: Plan) -> Result<Vec<u8>, AllocError>
    ensures { IfOk result (λ text. text.items ≡ plan_spelling plan) }
{
    match plan {
        Plan::Roll => Vec::from_slice(alloc, b"begun roll"),
        Plan::Sync => Vec::from_slice(alloc, b"begun sync"),
        Plan::Cp(reason) => {
            let mut text = Vec::from_slice(alloc, b"begun cp")?;
            push_word(&mut text, reason_word(reason))?;
            Ok(text)
        }
    }
}

/// The text of a call's beginning: `begun` and what it goes on to do, or its reply.
pub fn begun_text(alloc: Global, begun: &Begun) -> Result<Vec<u8>, AllocError>
    ensures { IfOk result (λ text. text.items ≡ begun_spelling begun.now) }
{
    match begun {
        Begun::Replied(reply) => reply_text(alloc, reply),
        Begun::Going(plan) => plan_text(alloc, *plan),
    }
}

/// The text of one event of a call in flight, which is the reply at the end.
pub fn step_text(alloc: Global, step: &Step) -> Result<Vec<u8>, AllocError>
    ensures { IfOk result (λ text. text.items ≡ step_spelling step.now) }
{
    match step {
        Step::None => Vec::from_slice(alloc, b"none"),
        Step::Page(page) => with_number(alloc, b"page", u64::from(*page)),
        Step::Flushed => Vec::from_slice(alloc, b"flushed"),
        Step::Node(offset) => with_number(alloc, b"node", u64::from(*offset)),
        Step::Mark => Vec::from_slice(alloc, b"mark"),
        Step::Block => Vec::from_slice(alloc, b"block"),
        Step::Tail => Vec::from_slice(alloc, b"tail"),
        Step::Slot(position) => with_number(alloc, b"slot", u64::from(*position)),
        Step::Again(position) => with_number(alloc, b"again", u64::from(*position)),
        Step::Replied(reply) => reply_text(alloc, reply),
    }
}

/// The text of one step of the flusher.
pub fn tick_text(tick: Tick) -> &'static [u8]
    ensures { result.now ≡ tick_spelling tick }
{
    match tick {
        Tick::Data => b"data",
        Tick::Node => b"node",
        Tick::Idle => b"idle",
        Tick::Room => b"room",
        Tick::Busy => b"busy",
        Tick::Closed => b"closed",
        Tick::Spent => b"spent",
        Tick::WriteFault => b"writefault",
    }
}

/// The text of an image that was made: how many nodes and how many data blocks may live in it.
pub fn made_text(alloc: Global, nodes: u32, data_blocks: u32) -> Result<Vec<u8>, AllocError>
    ensures { IfOk result (λ text. text.items ≡ made_spelling nodes data_blocks) }
{
    with_numbers(alloc, b"ok mkfs", u64::from(nodes), u64::from(data_blocks))
}

/// The text of a mount, with the number of rows that it rolled forward.
pub fn found_text(alloc: Global, rows: u32) -> Result<Vec<u8>, AllocError>
    ensures { IfOk result (λ text. text.items ≡ found_spelling rows) }
{
    with_number(alloc, b"ok mount", u64::from(rows))
}

/// The text of a mount of a volume that is open.
pub fn mounted_text() -> &'static [u8]
    ensures { result.now ≡ mounted_spelling }
{
    b"mounted"
}

/// The text of an unmount.
pub fn unmounted_text() -> &'static [u8]
    ensures { result.now ≡ unmounted_spelling }
{
    b"ok unmount"
}

/// The text of generated calls: their number, the replies that begin with `ok`, and the others.
pub fn counted_text(alloc: Global, count: u32, ok: u32, refused: u32) -> Result<Vec<u8>, AllocError>
    ensures { IfOk result (λ text. text.items ≡ counted_spelling count ok refused) }
{
    let mut text = with_numbers(alloc, b"gen", u64::from(count), u64::from(ok))?;
    push_argument(&mut text, u64::from(refused))?;
    Ok(text)
}
