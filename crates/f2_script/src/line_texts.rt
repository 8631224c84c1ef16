//! Writing a line of a script.
ghost use Rattle.std.specs.Prelude.{◌≡◌, ◌∷◌, ◌++◌, decimal, IfOk, OnOk};
ghost use Rattle.std.specs.List.{flat_map};
ghost use Rattle.f2_script.specs.Text.{path_text};
ghost use Rattle.f2_script.specs.Words.{spaced};
ghost use Rattle.f2_script.specs.Verbs.{op_word};
ghost use Rattle.f2_script.specs.Lines.{piece_words, request_words, kind_word as kind_text, spelling};
ghost use Rattle.f2_script.specs.declared.script.Line.TheVariants as line;

use crate::script::Line;
use crate::texts::{push_argument, push_path, push_word, with_number, with_numbers};
use crate::verbs::{Op, Verb};
use f2_model::{CallKind, Path, Piece, Request};
use std::alloc::{AllocError, Global};

fn push_pieces(text: &mut Vec<u8>, pieces: &[Piece]) -> Result<(), AllocError>
    ensures { OnOk result (text.new.items ≡ text.old.items ++ spaced (flat_map piece_words pieces.now)) }
{
    for piece in pieces {
        push_argument(text, piece.off)?;
        push_argument(text, u64::from(piece.len))?;
        push_argument(text, u64::from(piece.byte))?;
    }
    Ok(())
}

/// Writes a space and a path.
fn push_named(text: &mut Vec<u8>, path: &Path) -> Result<(), AllocError>
    ensures { OnOk result (text.new.items ≡ text.old.items ++ 32 ∷ path_text path.now) }
{
    text.push(b' ')?;
    push_path(text, path)
}

/// Writes the first word of a call and its path, with a space before each.
fn push_call(text: &mut Vec<u8>, op: Op, path: &Path) -> Result<(), AllocError>
    ensures { OnOk result (text.new.items ≡ text.old.items ++ 32 ∷ (op_word op ++ 32 ∷ path_text path.now)) }
{
    push_word(text, op.word())?;
    push_named(text, path)
}

/// Writes the words of a call, with a space before each.
fn push_request(text: &mut Vec<u8>, request: &Request) -> Result<(), AllocError>
    ensures { OnOk result (text.new.items ≡ text.old.items ++ spaced (request_words request.now)) }
{
    match request {
        Request::Create { path } => push_call(text, Op::Create, path),
        Request::Mkdir { path } => push_call(text, Op::Mkdir, path),
        Request::Write { path, pieces } => {
            push_call(text, Op::Write, path)?;
            push_pieces(text, pieces.as_slice())
        }
        Request::Truncate { path, size } => {
            push_call(text, Op::Truncate, path)?;
            push_argument(text, *size)
        }
        Request::Unlink { path } => push_call(text, Op::Unlink, path),
        Request::Rmdir { path } => push_call(text, Op::Rmdir, path),
        Request::Rename { from, to } => {
            push_call(text, Op::Rename, from)?;
            push_named(text, to)
        }
        Request::Read { path, off, len } => {
            push_call(text, Op::Read, path)?;
            push_argument(text, *off)?;
            push_argument(text, u64::from(*len))
        }
        Request::List { path } => push_call(text, Op::List, path),
        Request::Fsync { path } => push_call(text, Op::Fsync, path),
        Request::Sync => push_word(text, Op::Sync.word()),
    }
}

/// A word, a seat and a call.
fn with_call(alloc: Global, word: &[u8], seat: u8, request: &Request) -> Result<Vec<u8>, AllocError>
    ensures { IfOk result (λ text. text.items ≡ word.now ++ 32 ∷ (decimal seat ++ spaced (request_words request.now))) }
{
    let mut text = with_number(alloc, word, u64::from(seat))?;
    push_request(&mut text, request)?;
    Ok(text)
}

fn kind_word(kind: CallKind) -> &'static [u8]
    ensures { result.now ≡ kind_text kind }
{
    match kind {
        CallKind::Read => b"read",
        CallKind::Write => b"write",
        CallKind::Flush => b"flush",
    }
}

fn fail_text(alloc: Global, kind: CallKind, n: u32) -> Result<Vec<u8>, AllocError>
    ensures { IfOk result (λ text. text.items ≡ spelling (line.Fail kind n)) }
{
    let mut text = Vec::from_slice(alloc, Verb::Fail.word())?;
    push_word(&mut text, kind_word(kind))?;
    push_argument(&mut text, u64::from(n))?;
    Ok(text)
}

/// The text of a line, without its end; that of a skipped line is empty.
pub fn line_text(alloc: Global, line: &Line) -> Result<Vec<u8>, AllocError>
    ensures { IfOk result (λ text. text.items ≡ spelling line.now) }
{
    match line {
        Line::Skipped => Ok(Vec::new(alloc)),
        Line::Mkfs { blocks, nat } => {
            with_numbers(
                alloc,
                Verb::Mkfs.word(),
                u64::from(*blocks),
                u64::from(*nat),
            )
        }
        Line::Call { seat, request } => with_call(alloc, Verb::Call.word(), *seat, request),
        Line::Begin { seat, request } => with_call(alloc, Verb::Begin.word(), *seat, request),
        Line::Go { seat } => with_number(alloc, Verb::Go.word(), u64::from(*seat)),
        Line::Slot { seat } => with_number(alloc, Verb::Slot.word(), u64::from(*seat)),
        Line::End { seat } => with_number(alloc, Verb::End.word(), u64::from(*seat)),
        Line::Tick => Vec::from_slice(alloc, Verb::Tick.word()),
        Line::Crash { pick } => with_number(alloc, Verb::Crash.word(), *pick),
        Line::Fail { kind, n } => fail_text(alloc, *kind, *n),
        Line::Stop { n } => with_number(alloc, Verb::Stop.word(), u64::from(*n)),
        Line::Mount => Vec::from_slice(alloc, Verb::Mount.word()),
        Line::Unmount => Vec::from_slice(alloc, Verb::Unmount.word()),
        Line::Tree => Vec::from_slice(alloc, Verb::Tree.word()),
        Line::Gen { start, count } => with_numbers(
            alloc,
            Verb::Gen.word(),
            *start,
            u64::from(*count),
        ),
    }
}
