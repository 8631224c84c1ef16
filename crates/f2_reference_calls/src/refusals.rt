//! The refusals of a call by its paths, the tree and its numbers, in the order in which they are tested.
ghost use Rattle.std.specs.Prelude.{◌≡◌, nat_lt, zip};
ghost use Rattle.std.specs.List.{list_all, list_any};
ghost use Rattle.std.specs.FinMap as map;
ghost use Rattle.f2_model.specs.Content.{end_of};
ghost use Rattle.f2_model.specs.Names.{same_name};
ghost use Rattle.f2_model.specs.Tree.{is_in};
ghost use Rattle.f2_model.specs.Call.{goes_below, has_bad_name, walk_refusal, names_directory, name_is_there, has_entries, is_too_big, refusal};

use crate::depths::{MOST_DEPTH, puts_too_deep};
use crate::walks::{is_in, walk, walk_directory, walk_parent};
use f2_model::{Kind, Limits, Name, Piece, Reply, Request, Row, Tree};

/// The first refusal of a call, or `None` where there is none; want of space is asked apart.
pub fn refusal(limits: Limits, tree: &Tree, request: &Request) -> Option<Reply>
    ensures { result ≡ refusal limits tree.now request.now }
{
    if has_bad_name(request) {
        return Some(Reply::BadName);
    }
    if let Some(refused) = walk_refusal(tree, request) {
        return Some(refused);
    }
    if names_directory(tree, request) {
        return Some(Reply::IsDir);
    }
    if name_is_there(tree, request) {
        return Some(Reply::Exists);
    }
    if has_entries(tree, request) {
        return Some(Reply::NotEmpty);
    }
    if is_too_big(limits, tree, request) {
        return Some(Reply::TooBig);
    }
    None
}

/// Whether a path goes on below another one.
fn goes_below(path: &[Name], top: &[Name]) -> bool
    ensures { result ≡ goes_below path.now top.now }
{
    top.len() < path.len() && agree(top, path)
}

/// Whether two paths have the same names as far as both go.
fn agree(one: &[Name], other: &[Name]) -> bool
    ensures { result ≡ list_all (λ (a, b). same_name a b) (zip one.now other.now) }
{
    one.iter().zip(other).all(|(a, b)| a.is_same(b))
}

/// Whether a path of the call is none that it could have.
fn has_bad_name(request: &Request) -> bool
    ensures { result ≡ has_bad_name request.now }
{
    match request {
        Request::Create { path }
        | Request::Mkdir { path }
        | Request::Write { path, .. }
        | Request::Truncate { path, .. }
        | Request::Unlink { path }
        | Request::Read { path, .. }
        | Request::List { path }
        | Request::Fsync { path } => !path.is_good(),
        Request::Rmdir { path } => !path.is_good() || path.is_empty(),
        Request::Rename { from, to } => {
            !from.is_good()
                || !to.is_good()
                || from.is_empty()
                || goes_below(to.as_slice(), from.as_slice())
        }
        Request::Sync => false,
    }
}

/// Where the walks of a call stop; the first path is walked before the second.
fn walk_refusal(tree: &Tree, request: &Request) -> Option<Reply>
    ensures { result ≡ walk_refusal tree.now request.now }
{
    match request {
        Request::Create { path } | Request::Mkdir { path } => {
            walk_parent(tree, path.as_slice()).err()
        }
        Request::Write { path, .. }
        | Request::Truncate { path, .. }
        | Request::Unlink { path }
        | Request::Read { path, .. }
        | Request::Fsync { path } => walk(tree, path.as_slice()).err(),
        Request::Rmdir { path } | Request::List { path } => {
            walk_directory(tree, path.as_slice()).err()
        }
        Request::Rename { from, to } => match walk(tree, from.as_slice()) {
            Ok(_) => walk_parent(tree, to.as_slice()).err(),
            Err(refused) => Some(refused),
        },
        Request::Sync => None,
    }
}

/// Whether a call that wants a file names a directory.
fn names_directory(tree: &Tree, request: &Request) -> bool
    ensures { result ≡ names_directory tree.now request.now }
{
    match request {
        Request::Write { path, .. }
        | Request::Truncate { path, .. }
        | Request::Unlink { path }
        | Request::Read { path, .. } => {
            walk(tree, path.as_slice()).is_ok_and(|row| row.kind == Kind::Directory)
        }
        _ => false,
    }
}

/// Whether a call that makes a name finds it there.
fn name_is_there(tree: &Tree, request: &Request) -> bool
    ensures { result ≡ name_is_there tree.now request.now }
{
    match request {
        Request::Create { path } | Request::Mkdir { path } => walk(tree, path.as_slice()).is_ok(),
        Request::Rename { to, .. } => walk(tree, to.as_slice()).is_ok(),
        _ => false,
    }
}

/// Whether a row stands in a directory.
fn is_occupied(tree: &Tree, directory: u32) -> bool
    ensures { result ≡ list_any (is_in directory) (map.values tree.now) }
{
    tree.rows().any(|row| is_in(row, directory))
}

/// Whether a directory that is to go has a row in it.
fn has_entries(tree: &Tree, request: &Request) -> bool
    ensures { result ≡ has_entries tree.now request.now }
{
    match request {
        Request::Rmdir { path } => walk(tree, path.as_slice()).is_ok_and(|directory| is_occupied(
            tree,
            directory.ino,
        )),
        _ => false,
    }
}

/// Whether a piece ends past a size.
fn ends_past(pieces: &[Piece], size: u64) -> bool
    ensures { result ≡ list_any (λ piece. nat_lt size (end_of piece)) pieces.now }
{
    pieces.iter().any(|piece| u128::from(size) < u128::from(piece.off) + u128::from(piece.len))
}

/// Whether a call would make a file too long, or a directory too deep.
fn is_too_big(limits: Limits, tree: &Tree, request: &Request) -> bool
    ensures { result ≡ is_too_big limits tree.now request.now }
{
    match request {
        Request::Write { pieces, .. } => ends_past(pieces.as_slice(), limits.size),
        Request::Truncate { size, .. } => *size > limits.size,
        Request::Mkdir { path } => path.len() > MOST_DEPTH,
        Request::Rename { from, to } => {
            walk(tree, from.as_slice()).is_ok_and(|row| puts_too_deep(tree, to.len(), row))
        }
        _ => false,
    }
}
