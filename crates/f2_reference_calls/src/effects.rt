//! The tree after a call.
ghost use Rattle.std.specs.Prelude.{◌≡◌, ◌≤◌, All, IfOk, OnOk, None};
ghost use Rattle.std.specs.FinMap as map;
ghost use Rattle.f2_model.specs.Content.{end_of, put_pieces, raised_size, cut_pages};
ghost use Rattle.f2_model.specs.Tree.{last_name, walk};
ghost use Rattle.f2_model.specs.Call.{effect, refusal, new_row, on_row, walk_parent};
ghost use Rattle.f2_reference_calls.specs.Given.{IsFitting};
ghost use Rattle.f2_spans.specs.Spans.{MOST_SIZE};

use crate::contents::{cut_pages, put_pieces};
use crate::copies::{copy_row, copy_tree};
use crate::walks::{walk, walk_parent};
use f2_model::{Kind, Limits, Name, Pages, Path, Piece, Request, Row, Tree};
use f2_spans::raised_size;
use std::alloc::{AllocError, Global};

/// An equal copy of the last name of a path, empty for the root.
fn last_name(alloc: Global, path: &Path) -> Result<Name, AllocError>
    ensures { IfOk result (λ name. name ≡ last_name path.now) }
{
    match path.as_slice().last() {
        Some(name) => name.copy(alloc),
        None => Ok(Name::new(alloc)),
    }
}

/// Puts an empty row of a kind at the end of a path, where its directory is there. Where memory is refused the
/// tree after it stays as it was.
fn add_row(
    alloc: Global,
    tree: &Tree,
    after: &mut Tree,
    path: &Path,
    kind: Kind,
    ino: u32,
) -> Result<(), AllocError>
    requires { after.old ≡ tree.now }
    ensures { OnOk result (after.new ≡ on_row tree.now (walk_parent tree.now path.now) (λ up. map.insert tree.now ino (new_row kind ino up.ino (last_name path.now)))) }
{
    match walk_parent(tree, path.as_slice()) {
        Ok(up) => {
            let row = Row {
                ino,
                kind,
                parent: up.ino,
                name: last_name(alloc, path)?,
                size: 0,
                pages: Pages::new(alloc),
            };
            after.put(row)
        }
        Err(_) => Ok(()),
    }
}

/// Puts pieces into the file at the end of a path. Where memory is refused the tree after it stays as it was.
fn write_row(
    alloc: Global,
    tree: &Tree,
    after: &mut Tree,
    path: &Path,
    pieces: &[Piece],
) -> Result<(), AllocError>
    requires same { after.old ≡ tree.now }
    requires within { All (λ piece. end_of piece ≤ MOST_SIZE) pieces.now }
    ensures { OnOk result (after.new ≡ on_row tree.now (walk tree.now path.now) (λ row. map.insert tree.now row.ino (record row { size = raised_size row.size pieces.now; pages = put_pieces row.pages pieces.now }))) }
{
    match walk(tree, path.as_slice()) {
        Ok(row) => {
            let mut row = copy_row(alloc, row)?;
            put_pieces(&mut row.pages, pieces)?;
            row.size = raised_size(row.size, pieces);
            after.put(row)
        }
        Err(_) => Ok(()),
    }
}

/// Sets the size of the file at the end of a path. Where memory is refused the tree after it stays as it was.
fn cut_row(
    alloc: Global,
    tree: &Tree,
    after: &mut Tree,
    path: &Path,
    size: u64,
) -> Result<(), AllocError>
    requires same { after.old ≡ tree.now }
    requires within { size ≤ MOST_SIZE }
    ensures { OnOk result (after.new ≡ on_row tree.now (walk tree.now path.now) (λ row. map.insert tree.now row.ino (record row { size = size; pages = cut_pages row.pages size }))) }
{
    match walk(tree, path.as_slice()) {
        Ok(row) => {
            let mut row = copy_row(alloc, row)?;
            cut_pages(&mut row.pages, size)?;
            row.size = size;
            after.put(row)
        }
        Err(_) => Ok(()),
    }
}

/// Takes out the row at the end of a path.
fn take_row(tree: &Tree, after: &mut Tree, path: &Path)
    requires { after.old ≡ tree.now }
    ensures { after.new ≡ on_row tree.now (walk tree.now path.now) (λ row. map.remove tree.now row.ino) }
{
    if let Ok(row) = walk(tree, path.as_slice()) {
        let _ = after.remove(row.ino);
    }
}

/// Gives the row at the end of a path another parent and name. Where memory is refused the tree after it stays as it was.
fn move_row(
    alloc: Global,
    tree: &Tree,
    after: &mut Tree,
    from: &Path,
    to: &Path,
) -> Result<(), AllocError>
    requires { after.old ≡ tree.now }
    ensures { OnOk result (after.new ≡ on_row tree.now (walk tree.now from.now) (λ row. on_row tree.now (walk_parent tree.now to.now) (λ up. map.insert tree.now row.ino (record row { parent = up.ino; name = last_name to.now })))) }
{
    match walk(tree, from.as_slice()) {
        Ok(row) => match walk_parent(tree, to.as_slice()) {
            Ok(up) => {
                let mut row = copy_row(alloc, row)?;
                row.parent = up.ino;
                row.name = last_name(alloc, to)?;
                after.put(row)
            }
            Err(_) => Ok(()),
        },
        Err(_) => Ok(()),
    }
}

/// The tree after a call that isn't refused; a new row gets the ino, in the place of one that stood there.
pub fn effect(
    alloc: Global,
    limits: Limits,
    tree: &Tree,
    request: &Request,
    ino: u32,
) -> Result<Tree, AllocError>
    requires fitting { IsFitting tree.now }
    requires size { limits.size ≤ MOST_SIZE }
    requires unrefused { refusal limits tree.now request.now ≡ None }
    ensures { IfOk result (λ after. after ≡ effect tree.now request.now ino) }
{
    let mut after = copy_tree(alloc, tree)?;
    match request {
        Request::Create { path } => add_row(alloc, tree, &mut after, path, Kind::Regular, ino)?,
        Request::Mkdir { path } => add_row(alloc, tree, &mut after, path, Kind::Directory, ino)?,
        Request::Write { path, pieces } => {
            write_row(alloc, tree, &mut after, path, pieces.as_slice())?;
        }
        Request::Truncate { path, size } => cut_row(alloc, tree, &mut after, path, *size)?,
        Request::Unlink { path } | Request::Rmdir { path } => take_row(tree, &mut after, path),
        Request::Rename { from, to } => move_row(alloc, tree, &mut after, from, to)?,
        Request::Read { .. } | Request::List { .. } | Request::Fsync { .. } | Request::Sync => {}
    }
    Ok(after)
}
