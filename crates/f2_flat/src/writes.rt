//! Writing into a file.
ghost use Rattle.std.specs.Prelude.{◌≡◌, MatchResult, Ok, Err, OnOk, OnErr, Some, nat_lt};
ghost use Rattle.std.specs.List.{list_any};
ghost use Rattle.std.specs.FinMap as map;
ghost use Rattle.f2_format.specs.Geometry.{ImageGeometry};
ghost use Rattle.f2_model.specs.Content.{end_of};
ghost use Rattle.f2_model.specs.declared.rows.Row as row;
ghost use Rattle.f2_pieces.specs.Fresh.{fresh_pages};
ghost use Rattle.f2_spans.specs.Spans.{EndWithin};
ghost use Rattle.f2_flat.specs.Kept.{HasRootFiles, BindsNames};
ghost use Rattle.f2_flat.specs.Steps.{FindsFile, TakesPieces, row_with, with_pieces};

use crate::rows::FILE_SIZE;
use crate::walks::walk;
use f2_dir::Dir;
use f2_model::{Kind, Name, Pages, Path, Piece, ROOT, Reply, Row, Tree};
use f2_pieces::put;
use f2_spans::raised_size;
use std::alloc::{AllocError, Global};

/// Whether a piece ends past the longest file.
fn ends_past(pieces: &[Piece]) -> bool
    ensures { result ≡ list_any (λ piece. nat_lt FILE_SIZE (end_of piece)) pieces.now }
{
    pieces.iter().any(|piece| u128::from(FILE_SIZE) < u128::from(piece.off) + u128::from(piece.len))
}

/// The file at a path into which pieces may be put, or the first refusal but want of space.
pub(crate) fn file_for<'a>(
    tree: &'a Tree,
    names: &Dir,
    path: &Path,
    pieces: &[Piece],
) -> Result<&'a Row, Reply>
    requires files { HasRootFiles tree.now }
    requires names { BindsNames tree.now names.now }
    ensures { (geom : ImageGeometry) → MatchResult result (λ row. FindsFile geom tree.now path.now pieces.now (Ok row.now)) (λ refused. FindsFile geom tree.now path.now pieces.now (Err refused)) }
{
    if !path.is_good() {
        return Err(Reply::BadName);
    }
    let row = walk(tree, names, path.as_slice())?;
    if row.kind == Kind::Directory {
        return Err(Reply::IsDir);
    }
    if ends_past(pieces) {
        return Err(Reply::TooBig);
    }
    Ok(row)
}

/// Puts pieces into a row, where these are the pages that they bring. Where memory is refused the row stays.
fn put_into(row: &mut Row, pieces: &[Piece], fresh: &[u32]) -> Result<(), AllocError>
    requires ends { EndWithin pieces.now }
    requires fresh { fresh.now ≡ fresh_pages row.old.pages pieces.now }
    ensures ok { OnOk result (row.new ≡ row_with row.old pieces.now) }
    ensures err { OnErr result (row.new ≡ row.old) }
{
    put(&mut row.pages, pieces, fresh)?;
    row.size = raised_size(row.size, pieces);
    Ok(())
}

/// A row that stands for another one in a tree while that is changed; it takes no memory.
fn stub(alloc: Global, ino: u32) -> Row
    ensures { result.ino ≡ ino }
{
    Row {
        ino,
        kind: Kind::Regular,
        parent: ROOT,
        name: Name::new(alloc),
        size: 0,
        pages: Pages::new(alloc),
    }
}

/// Puts pieces into the file of an ino, where these are the pages that they bring. Where memory is refused the tree stays.
///
/// The row is taken out of the tree, changed and put back, so nothing of it is copied.
pub(crate) fn put_pieces(
    alloc: Global,
    tree: &mut Tree,
    ino: u32,
    pieces: &[Piece],
    fresh: &[u32],
) -> Result<(), AllocError>
    requires { (row : row.Row) × TakesPieces tree.old ino pieces.now fresh.now row }
    ensures ok { (row : row.Row) → map.get tree.old ino ≡ Some row → OnOk result (tree.new ≡ with_pieces tree.old row pieces.now) }
    ensures err { OnErr result (tree.new ≡ tree.old) }
{
    match tree.replace(stub(alloc, ino)) {
        Ok(mut row) => {
            let done = put_into(&mut row, pieces, fresh);
            let _ = tree.replace(row);
            done
        }
        // The file is there, so a row comes out.
        Err(_) => unreachable!(),
    }
}
