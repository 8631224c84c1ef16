//! The reply to a call that isn't refused.
ghost use Rattle.std.specs.Prelude.{◌≡◌, ◌≤◌, Ok, IfOk};
ghost use Rattle.f2_model.specs.Call.{answer, bytes_told, names_told};
ghost use Rattle.f2_reference_calls.specs.Given.{IsFitting};
ghost use Rattle.f2_spans.specs.Spans.{MOST_SIZE};

use crate::contents::bytes_between;
use crate::counts::rows_of;
use crate::listings::names_in;
use crate::walks::walk;
use f2_model::{Reply, Request, Row, Tree};
use std::alloc::{AllocError, Global};

/// What a read finds in a row.
fn bytes_told(alloc: Global, row: &Row, off: u64, len: u32) -> Result<Reply, AllocError>
    requires { row.now.size ≤ MOST_SIZE }
    ensures { IfOk result (λ told. told ≡ bytes_told off len (Ok row.now)) }
{
    let end = off.saturating_add(u64::from(len)).min(row.size);
    let bytes = bytes_between(alloc, &row.pages, off, end)?;
    Ok(Reply::Bytes(bytes))
}

/// What a list finds in a directory.
fn names_told(alloc: Global, tree: &Tree, directory: &Row) -> Result<Reply, AllocError>
    ensures { IfOk result (λ told. told ≡ names_told tree.now (Ok directory.now)) }
{
    let rows = rows_of(alloc, tree)?;
    let names = names_in(alloc, rows.as_slice(), directory.ino)?;
    Ok(Reply::Names(names))
}

/// The reply to a call that isn't refused: what a read or a list finds, and else `Done`.
pub fn answer(alloc: Global, tree: &Tree, request: &Request) -> Result<Reply, AllocError>
    requires { IsFitting tree.now }
    ensures { IfOk result (λ told. told ≡ answer tree.now request.now) }
{
    match request {
        Request::Read { path, off, len } => match walk(tree, path.as_slice()) {
            Ok(row) => bytes_told(alloc, row, *off, *len),
            Err(refused) => Ok(refused),
        },
        Request::List { path } => match walk(tree, path.as_slice()) {
            Ok(directory) => names_told(alloc, tree, directory),
            Err(refused) => Ok(refused),
        },
        _ => Ok(Reply::Done),
    }
}
