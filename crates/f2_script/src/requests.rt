//! Calls of a line.
ghost use Rattle.std.specs.Prelude.{◌≡◌, [], ◌∷◌, ◌≤◌, ◌↔◌, true, length, IfOk, codes};
ghost use Rattle.std.specs.List.{flat_map};
ghost use Rattle.f2_script.specs.Cuts.{Finds};
ghost use Rattle.f2_script.specs.Words.{Named, AreWords, shown};
ghost use Rattle.f2_script.specs.Verbs.{op_word, call_by_path as by_path};
ghost use Rattle.f2_script.specs.Lines.{piece_words};
ghost use Rattle.f2_script.specs.Grammar.{IsRequest, IsLong};

use crate::paths::path_of;
use crate::verbs::Op;
use crate::words::number;
use f2_model::{Path, Piece, Pieces, Request};
use std::alloc::{AllocError, Global};

/// The greatest offset and size that a line may name.
const LAST_OFFSET: u64 = u64::MAX;

/// The most bytes of a piece.
const MOST_LENGTH: u64 = 65_536;

/// The greatest byte.
const LAST_BYTE: u64 = 255;

/// The most pieces of a write.
const MOST_PIECES: usize = 8;

/// The most bytes of a read.
const MOST_READ: u64 = 1_024;

/// The path that the words are.
fn one_path(alloc: Global, words: &[&[u8]]) -> Result<Option<Path>, AllocError>
    ensures { IfOk result (Finds (λ path. AreWords (Named path ∷ []) (shown words.now))) }
{
    match words {
        [path] => path_of(alloc, path),
        _ => Ok(None),
    }
}

/// The piece of a write that three words are.
fn piece_of(off: &[u8], len: &[u8], byte: &[u8]) -> Option<Piece>
    ensures { Finds (λ piece. AreWords (piece_words piece) (off.now ∷ len.now ∷ byte.now ∷ [])) result }
{
    let off = number(off, 0, LAST_OFFSET)?;
    let len = number(len, 1, MOST_LENGTH)?;
    let byte = number(byte, 0, LAST_BYTE)?;
    Some(Piece {
        off,
        len: len as u32,
        byte: byte as u8,
    })
}

/// The pieces that the words are.
fn pieces_of(alloc: Global, words: &[&[u8]]) -> Result<Option<Pieces>, AllocError>
    ensures { IfOk result (Finds (λ pieces. AreWords (flat_map piece_words pieces) (shown words.now))) }
{
    let mut pieces = Pieces::new(alloc);
    let mut left = words;
    while let [off, len, byte, rest @ ..] = left {
        let Some(piece) = piece_of(off, len, byte) else {
            return Ok(None);
        };
        pieces.push(piece)?;
        left = rest;
    }
    if left.is_empty() {
        Ok(Some(pieces))
    } else {
        Ok(None)
    }
}

/// The write that words after `write` are.
fn write_of(alloc: Global, words: &[&[u8]]) -> Result<Option<Request>, AllocError>
    ensures { IfOk result (Finds (IsRequest (codes "write" ∷ shown words.now))) }
{
    let [path, pieces @ ..] = words else {
        return Ok(None);
    };
    let Some(path) = path_of(alloc, path)? else {
        return Ok(None);
    };
    let Some(pieces) = pieces_of(alloc, pieces)? else {
        return Ok(None);
    };
    if pieces.is_empty() || pieces.len() > MOST_PIECES {
        return Ok(None);
    }
    Ok(Some(Request::Write { path, pieces }))
}

/// The truncate that words after `truncate` are.
fn truncate_of(alloc: Global, words: &[&[u8]]) -> Result<Option<Request>, AllocError>
    ensures { IfOk result (Finds (IsRequest (codes "truncate" ∷ shown words.now))) }
{
    let [path, size] = words else {
        return Ok(None);
    };
    let Some(size) = number(size, 0, LAST_OFFSET) else {
        return Ok(None);
    };
    let Some(path) = path_of(alloc, path)? else {
        return Ok(None);
    };
    Ok(Some(Request::Truncate { path, size }))
}

/// The rename that words after `rename` are.
fn rename_of(alloc: Global, words: &[&[u8]]) -> Result<Option<Request>, AllocError>
    ensures { IfOk result (Finds (IsRequest (codes "rename" ∷ shown words.now))) }
{
    let [from, to] = words else {
        return Ok(None);
    };
    let Some(from) = path_of(alloc, from)? else {
        return Ok(None);
    };
    let Some(to) = path_of(alloc, to)? else {
        return Ok(None);
    };
    Ok(Some(Request::Rename { from, to }))
}

/// The read that words after `read` are.
fn read_of(alloc: Global, words: &[&[u8]]) -> Result<Option<Request>, AllocError>
    ensures { IfOk result (Finds (IsRequest (codes "read" ∷ shown words.now))) }
{
    let [path, off, len] = words else {
        return Ok(None);
    };
    let Some(off) = number(off, 0, LAST_OFFSET) else {
        return Ok(None);
    };
    let Some(len) = number(len, 1, MOST_READ) else {
        return Ok(None);
    };
    let Some(path) = path_of(alloc, path)? else {
        return Ok(None);
    };
    Ok(Some(Request::Read {
        path,
        off,
        len: len as u32,
    }))
}

/// The sync that no words after `sync` are.
fn sync_of(words: &[&[u8]]) -> Option<Request>
    ensures { Finds (IsRequest (codes "sync" ∷ shown words.now)) result }
{
    if words.is_empty() {
        Some(Request::Sync)
    } else {
        None
    }
}

/// The call that takes a path and nothing else.
fn call_by_path(op: Op, path: Path) -> Option<Request>
    ensures { result ≡ by_path op path }
{
    match op {
        Op::Create => Some(Request::Create { path }),
        Op::Mkdir => Some(Request::Mkdir { path }),
        Op::Unlink => Some(Request::Unlink { path }),
        Op::Rmdir => Some(Request::Rmdir { path }),
        Op::List => Some(Request::List { path }),
        Op::Fsync => Some(Request::Fsync { path }),
        _ => None,
    }
}

/// The call that the words after its first are.
fn call_of(alloc: Global, op: Op, words: &[&[u8]]) -> Result<Option<Request>, AllocError>
    ensures { IfOk result (Finds (IsRequest (op_word op ∷ shown words.now))) }
{
    match op {
        Op::Write => write_of(alloc, words),
        Op::Truncate => truncate_of(alloc, words),
        Op::Rename => rename_of(alloc, words),
        Op::Read => read_of(alloc, words),
        Op::Sync => Ok(sync_of(words)),
        _ => {
            let Some(path) = one_path(alloc, words)? else {
                return Ok(None);
            };
            Ok(call_by_path(op, path))
        }
    }
}

/// The call that the words are.
pub fn request_of(alloc: Global, words: &[&[u8]]) -> Result<Option<Request>, AllocError>
    ensures { IfOk result (Finds (IsRequest (shown words.now))) }
{
    let [word, arguments @ ..] = words else {
        return Ok(None);
    };
    let Some(op) = Op::of(word) else {
        return Ok(None);
    };
    call_of(alloc, op, arguments)
}

/// Whether a call may begin and stay in flight.
pub fn is_long(request: &Request) -> bool
    ensures { (result ≡ true) ↔ IsLong request.now }
{
    matches!(request, Request::Fsync { .. } | Request::Sync)
}
