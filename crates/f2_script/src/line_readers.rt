//! Reading a line of a script.
ghost use Rattle.std.specs.Prelude.{◌≡◌, ◌∷◌, true, ◌↔◌, codes, IfOk};
ghost use Rattle.f2_script.specs.Cuts.{Finds};
ghost use Rattle.f2_script.specs.Words.{shown};
ghost use Rattle.f2_script.specs.Verbs.{verb_word, bare};
ghost use Rattle.f2_script.specs.Lines.{kind_word};
ghost use Rattle.f2_script.specs.Grammar.{IsSaid, SaysNothing, IsLine};

use crate::requests::{is_long, request_of};
use crate::script::Line;
use crate::verbs::Verb;
use crate::words::{number, one_number, words_of};
use f2_model::CallKind;
use std::alloc::{AllocError, Global};

/// The greatest number of blocks, of failing calls and of calls before a stop.
const LAST_NUMBER: u64 = u32::MAX as u64;

/// The greatest pick and start.
const LAST_LONG: u64 = u64::MAX;

/// The seats that a script may name are 1 to this one.
const LAST_SEAT: u64 = 8;

/// The most calls of a `gen` line.
const MOST_CALLS: u64 = 50_000;

/// The `mkfs` line that ends in these words.
fn mkfs_of(words: &[&[u8]]) -> Option<Line>
    ensures { Finds (IsSaid (codes "mkfs" ∷ shown words.now)) result }
{
    let [blocks, nat] = words else {
        return None;
    };
    let blocks = number(blocks, 0, LAST_NUMBER)?;
    let nat = number(nat, 0, LAST_NUMBER)?;
    Some(Line::Mkfs {
        blocks: blocks as u32,
        nat: nat as u32,
    })
}

/// The `call` line that ends in these words.
fn call_of(alloc: Global, words: &[&[u8]]) -> Result<Option<Line>, AllocError>
    ensures { IfOk result (Finds (IsSaid (codes "call" ∷ shown words.now))) }
{
    let [seat, request @ ..] = words else {
        return Ok(None);
    };
    let Some(seat) = number(seat, 1, LAST_SEAT) else {
        return Ok(None);
    };
    let Some(request) = request_of(alloc, request)? else {
        return Ok(None);
    };
    Ok(Some(Line::Call {
        seat: seat as u8,
        request,
    }))
}

/// The `begin` line that ends in these words.
fn begin_of(alloc: Global, words: &[&[u8]]) -> Result<Option<Line>, AllocError>
    ensures { IfOk result (Finds (IsSaid (codes "begin" ∷ shown words.now))) }
{
    let [seat, request @ ..] = words else {
        return Ok(None);
    };
    let Some(seat) = number(seat, 1, LAST_SEAT) else {
        return Ok(None);
    };
    let Some(request) = request_of(alloc, request)? else {
        return Ok(None);
    };
    if !is_long(&request) {
        return Ok(None);
    }
    Ok(Some(Line::Begin {
        seat: seat as u8,
        request,
    }))
}

/// The `go` line that ends in these words.
fn go_of(words: &[&[u8]]) -> Option<Line>
    ensures { Finds (IsSaid (codes "go" ∷ shown words.now)) result }
{
    let seat = one_number(words, 1, LAST_SEAT)?;
    Some(Line::Go { seat: seat as u8 })
}

/// The `slot` line that ends in these words.
fn slot_of(words: &[&[u8]]) -> Option<Line>
    ensures { Finds (IsSaid (codes "slot" ∷ shown words.now)) result }
{
    let seat = one_number(words, 1, LAST_SEAT)?;
    Some(Line::Slot { seat: seat as u8 })
}

/// The `end` line that ends in these words.
fn end_of(words: &[&[u8]]) -> Option<Line>
    ensures { Finds (IsSaid (codes "end" ∷ shown words.now)) result }
{
    let seat = one_number(words, 1, LAST_SEAT)?;
    Some(Line::End { seat: seat as u8 })
}

/// The `crash` line that ends in these words.
fn crash_of(words: &[&[u8]]) -> Option<Line>
    ensures { Finds (IsSaid (codes "crash" ∷ shown words.now)) result }
{
    let pick = one_number(words, 0, LAST_LONG)?;
    Some(Line::Crash { pick })
}

/// The kind of device calls that a word is.
fn kind_of(word: &[u8]) -> Option<CallKind>
    ensures { Finds (λ kind. word.now ≡ kind_word kind) result }
{
    if word == b"read".as_slice() {
        Some(CallKind::Read)
    } else if word == b"write".as_slice() {
        Some(CallKind::Write)
    } else if word == b"flush".as_slice() {
        Some(CallKind::Flush)
    } else {
        None
    }
}

/// The `fail` line that ends in these words.
fn fail_of(words: &[&[u8]]) -> Option<Line>
    ensures { Finds (IsSaid (codes "fail" ∷ shown words.now)) result }
{
    let [kind, n] = words else {
        return None;
    };
    let kind = kind_of(kind)?;
    let n = number(n, 1, LAST_NUMBER)?;
    Some(Line::Fail { kind, n: n as u32 })
}

/// The `stop` line that ends in these words.
fn stop_of(words: &[&[u8]]) -> Option<Line>
    ensures { Finds (IsSaid (codes "stop" ∷ shown words.now)) result }
{
    let n = one_number(words, 0, LAST_NUMBER)?;
    Some(Line::Stop { n: n as u32 })
}

/// The `gen` line that ends in these words.
fn gen_of(words: &[&[u8]]) -> Option<Line>
    ensures { Finds (IsSaid (codes "gen" ∷ shown words.now)) result }
{
    let [start, count] = words else {
        return None;
    };
    let start = number(start, 0, LAST_LONG)?;
    let count = number(count, 0, MOST_CALLS)?;
    Some(Line::Gen {
        start,
        count: count as u32,
    })
}

/// The line of one word alone.
fn bare_of(line: Line, words: &[&[u8]]) -> Option<Line>
    ensures { result ≡ bare line (shown words.now) }
{
    if words.is_empty() { Some(line) } else { None }
}

/// The line that the words after its first are.
fn line_after(alloc: Global, verb: Verb, words: &[&[u8]]) -> Result<Option<Line>, AllocError>
    ensures { IfOk result (Finds (IsSaid (verb_word verb ∷ shown words.now))) }
{
    match verb {
        Verb::Mkfs => Ok(mkfs_of(words)),
        Verb::Call => call_of(alloc, words),
        Verb::Begin => begin_of(alloc, words),
        Verb::Go => Ok(go_of(words)),
        Verb::Slot => Ok(slot_of(words)),
        Verb::End => Ok(end_of(words)),
        Verb::Tick => Ok(bare_of(Line::Tick, words)),
        Verb::Crash => Ok(crash_of(words)),
        Verb::Fail => Ok(fail_of(words)),
        Verb::Stop => Ok(stop_of(words)),
        Verb::Mount => Ok(bare_of(Line::Mount, words)),
        Verb::Unmount => Ok(bare_of(Line::Unmount, words)),
        Verb::Tree => Ok(bare_of(Line::Tree, words)),
        Verb::Gen => Ok(gen_of(words)),
    }
}

/// Whether a line says nothing.
fn says_nothing(text: &[u8]) -> bool
    ensures { (result ≡ true) ↔ SaysNothing text.now }
{
    match text {
        [] => true,
        [first, ..] => *first == b'#',
    }
}

/// The line that the text is.
pub fn line_of(alloc: Global, text: &[u8]) -> Result<Option<Line>, AllocError>
    ensures { IfOk result (Finds (IsLine text.now)) }
{
    if says_nothing(text) {
        return Ok(Some(Line::Skipped));
    }
    let words = words_of(alloc, text)?;
    let [word, arguments @ ..] = words.as_slice() else {
        return Ok(None);
    };
    let Some(verb) = Verb::of(word) else {
        return Ok(None);
    };
    line_after(alloc, verb, arguments)
}
