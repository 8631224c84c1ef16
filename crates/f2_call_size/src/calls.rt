//! What a call changes in size.
ghost use Rattle.std.specs.Prelude.{◌≡◌, ◌≤◌, ℕ, All, IfOk};
ghost use Rattle.std.specs.Option.{option_copied};
ghost use Rattle.f2_files.specs.Shape.{IsShape, IsShapeOf};
ghost use Rattle.f2_model.specs.Content.{end_of};
ghost use Rattle.f2_model.specs.Tree.{IsGoodTree, Rows, parent_path};
ghost use Rattle.f2_model.specs.declared.rows.Row.{Row};
ghost use Rattle.f2_model.specs.declared.requests.Request.TheVariants.{Create, Mkdir, Rename, Rmdir, Truncate, Unlink, Write};
ghost use Rattle.f2_spans.specs.Spans.{MOST_SIZE};
ghost use Rattle.f2_call_size.specs.Calls.{IsInoAt, IsShapeAt, Tells, size_alone};
ghost use Rattle.f2_call_size.specs.Sizes.{IsFar, IsFew, IsWithin};

use crate::directories::change_of_names;
use crate::files::{size_of_cut, size_of_file, size_of_pieces};
use crate::sizes::{CallSize, UNCHANGED, added, gone, together};
use f2_files::{Files, Shape};
use f2_held::Both;
use f2_model::{Kind, Name, Path, Piece, Request};
use std::alloc::{AllocError, Global};

/// What a file without a page takes, and a directory without a name.
const INODE: Both = Both { nodes: 1, pages: 0 };

/// How many nodes and data blocks a call adds to the tree, and how many of them go, if it isn't refused.
///
/// It goes over what the call touches: the pages that the pieces reach, those that are cut off, or the names of the
/// directories in which a name changes, of which no count is kept. A write reaches no byte past the largest file, and
/// nothing is cut there. A directory of more than 2^29 blocks counts as want of memory.
pub fn size_of_call(alloc: Global, files: &Files, request: &Request) -> Result<CallSize, AllocError>
    requires { IsWithin request.now }
    ensures size { IfOk result (Tells files.now request.now) }
    ensures far { IfOk result IsFar }
{
    match request {
        Request::Create { path } | Request::Mkdir { path } => size_of_new(files, path),
        Request::Write { path, pieces } => size_of_write(alloc, files, path, pieces.as_slice()),
        Request::Truncate { path, size } => size_of_truncate(alloc, files, path, *size),
        Request::Unlink { path } | Request::Rmdir { path } => size_of_removed(alloc, files, path),
        Request::Rename { from, to } => size_of_rename(files, from, to),
        Request::Read { .. } | Request::List { .. } | Request::Fsync { .. } | Request::Sync => {
            Ok(UNCHANGED)
        }
    }
}

/// The row at the end of a path, or `None` where the path doesn't lead to one.
fn row_at<'a>(files: &'a Files, path: &[Name]) -> Option<&'a Shape>
    ensures { (most : ℕ) (tree : Rows) → IsGoodTree most tree → IsShapeOf files.now.shapes tree → IsShapeAt tree path.now (option_copied result) }
{
    let ino = files.walk(path).ok()?;
    files.row(ino)
}

/// The directory of a path's last name, or `None` where the path doesn't lead to one.
fn directory_of(files: &Files, path: &Path) -> Option<u32>
    ensures { (most : ℕ) (tree : Rows) → IsGoodTree most tree → IsShapeOf files.now.shapes tree → IsInoAt tree (parent_path path.now) result }
{
    let names = path.as_slice();
    files.walk(&names[..names.len().saturating_sub(1)]).ok()
}

/// A new row takes an inode, and its directory a name more.
fn size_of_new(files: &Files, path: &Path) -> Result<CallSize, AllocError>
    ensures create { IfOk result (Tells files.now (Create path.now)) }
    ensures mkdir { IfOk result (Tells files.now (Mkdir path.now)) }
    ensures far { IfOk result IsFar }
{
    let Some(directory) = directory_of(files, path) else {
        return Ok(UNCHANGED);
    };
    let names = change_of_names(files, directory, None, path.as_slice().last())?;
    Ok(together(added(INODE), names))
}

/// A write adds pages to its file.
fn size_of_write(
    alloc: Global,
    files: &Files,
    path: &Path,
    pieces: &[Piece],
) -> Result<CallSize, AllocError>
    requires { All (λ piece. end_of piece ≤ MOST_SIZE) pieces.now }
    ensures size { IfOk result (Tells files.now (Write path.now pieces.now)) }
    ensures far { IfOk result IsFar }
{
    let Some(row) = row_at(files, path.as_slice()) else {
        return Ok(UNCHANGED);
    };
    let more = size_of_pieces(alloc, row, pieces)?;
    Ok(added(more))
}

/// A truncate takes the pages past the size from its file.
fn size_of_truncate(
    alloc: Global,
    files: &Files,
    path: &Path,
    size: u64,
) -> Result<CallSize, AllocError>
    requires { size ≤ MOST_SIZE }
    ensures size { IfOk result (Tells files.now (Truncate path.now size)) }
    ensures far { IfOk result IsFar }
{
    let Some(row) = row_at(files, path.as_slice()) else {
        return Ok(UNCHANGED);
    };
    let less = size_of_cut(alloc, row, size)?;
    Ok(gone(less))
}

/// What a row takes that can be removed: a file, or a directory without a name.
fn size_of_row(alloc: Global, row: &Shape) -> Result<Both, AllocError>
    ensures size { IfOk result (λ size. (one : Row) → IsShape row.now one → size ≡ size_alone one) }
    ensures few { IfOk result IsFew }
{
    match row.kind {
        Kind::Regular => size_of_file(alloc, row),
        Kind::Directory => Ok(INODE),
    }
}

/// A row that is removed takes its name from its directory.
fn size_of_removed(alloc: Global, files: &Files, path: &Path) -> Result<CallSize, AllocError>
    ensures unlink { IfOk result (Tells files.now (Unlink path.now)) }
    ensures rmdir { IfOk result (Tells files.now (Rmdir path.now)) }
    ensures far { IfOk result IsFar }
{
    let Some(row) = row_at(files, path.as_slice()) else {
        return Ok(UNCHANGED);
    };
    let own = size_of_row(alloc, row)?;
    let names = change_of_names(files, row.parent, Some(&row.name), None)?;
    Ok(together(gone(own), names))
}

/// A row that moves takes its name from one directory and brings another one to the same or another one.
fn size_of_rename(files: &Files, from: &Path, to: &Path) -> Result<CallSize, AllocError>
    ensures size { IfOk result (Tells files.now (Rename from.now to.now)) }
    ensures far { IfOk result IsFar }
{
    let Some(row) = row_at(files, from.as_slice()) else {
        return Ok(UNCHANGED);
    };
    let Some(directory) = directory_of(files, to) else {
        return Ok(UNCHANGED);
    };
    let name = to.as_slice().last();
    if directory == row.parent {
        return change_of_names(files, directory, Some(&row.name), name);
    }
    let left = change_of_names(files, row.parent, Some(&row.name), None)?;
    let come = change_of_names(files, directory, None, name)?;
    Ok(together(left, come))
}
