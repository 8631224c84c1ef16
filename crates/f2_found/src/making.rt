//! The rows of a tree, made of a base and of the files that were marked after it.
ghost use Rattle.std.specs.Prelude.{IfOk};
ghost use Rattle.std.specs.FinMap as map;
ghost use Rattle.f2_format.specs.Geometry.{nid_limit};
ghost use Rattle.f2_found.specs.Made.{IsOfRoll, IsOfFile, IsMade, AreMadeTo};

use crate::copying::copied_pages;
use crate::nids::nid_count;
use crate::pages::FoundPages;
use crate::rows::{FoundRow, FoundRows};
use f2_layout::Geometry;
use f2_model::Kind;
use f2_overlay::{Roll, Rolls};
use f2_recover::{File, Walk};
use std::alloc::{AllocError, Global};

/// The row of a file that was marked.
fn rolled_row(alloc: Global, g: &Geometry, roll: &Roll) -> Result<FoundRow, AllocError>
    ensures { IfOk result (λ row. IsOfRoll g.now.blocks roll.now row) }
{
    let list = roll.pages.listed(alloc)?;
    Ok(FoundRow {
        kind: Kind::Regular,
        size: roll.size,
        pages: copied_pages(alloc, &list, g.blocks())?,
    })
}

/// The row of a file or a directory of the base.
fn base_row(alloc: Global, g: &Geometry, file: &File) -> Result<FoundRow, AllocError>
    ensures { IfOk result (λ row. IsOfFile g.now.blocks file.now row) }
{
    match file.kind {
        Kind::Regular => Ok(FoundRow {
            kind: Kind::Regular,
            size: file.size,
            pages: copied_pages(alloc, &file.nodes.list, g.blocks())?,
        }),
        Kind::Directory => Ok(FoundRow {
            kind: Kind::Directory,
            size: 0,
            pages: FoundPages::new(alloc),
        }),
    }
}

/// The row of an ino, or `None` where neither the marks nor the base have it.
fn row_of(
    alloc: Global,
    g: &Geometry,
    walk: &Walk,
    rolls: &Rolls,
    ino: u32,
) -> Result<Option<FoundRow>, AllocError>
    ensures { IfOk result (λ row. IsMade g.now.blocks (map.get rolls.now ino) (map.get walk.now.rows ino) row) }
{
    if let Some(roll) = rolls.get(ino) {
        return Ok(Some(rolled_row(alloc, g, roll)?));
    }
    match walk.rows.get(ino) {
        Some(row) => Ok(Some(base_row(alloc, g, &row.file)?)),
        None => Ok(None),
    }
}

/// All rows.
pub(crate) fn make_rows(
    alloc: Global,
    g: &Geometry,
    walk: &Walk,
    rolls: &Rolls,
) -> Result<FoundRows, AllocError>
    ensures { IfOk result (λ rows. AreMadeTo g.now.blocks rolls.now walk.now.rows (nid_limit g.now) rows) }
{
    let mut rows = FoundRows::new(alloc);
    for ino in 0..nid_count(g) {
        if let Some(row) = row_of(alloc, g, walk, rolls, ino)? {
            rows.put(ino, row)?;
        }
    }
    Ok(rows)
}
