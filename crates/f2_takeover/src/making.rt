//! The rows of a tree, made of a base and of the files that were marked after it.
ghost use Rattle.std.specs.Prelude.{◌≡◌, ◌+◌, ◌≤◌, Some, None, IfOk};
ghost use Rattle.std.specs.FinMap as map;
ghost use Rattle.std.specs.FinSet as set;
ghost use Rattle.f2_format.specs.Geometry.{nid_limit};
ghost use Rattle.f2_model.specs.Tree.{MOST_DEPTH as most};
ghost use Rattle.f2_image.specs.Images.{Image};
ghost use Rattle.f2_image.specs.Packs.{Checkpoint};
ghost use Rattle.f2_overlay.specs.Names.{HasRightMarks};
ghost use Rattle.f2_overlay.specs.Nodes.{HasRightNids};
ghost use Rattle.f2_overlay.specs.Rolls.{AreRolls};
ghost use Rattle.f2_recover.specs.Walking.{IsBaseRead};
ghost use Rattle.f2_takeover.specs.Orders.{IsRooted};
ghost use Rattle.f2_takeover.specs.Rows.{size_of as size_of_kind, IsDepthOf, IsOfRoll, IsOfBase, IsMade, AreMadeTo, AreRowsOf};

use crate::changes::changed_directories;
use crate::rows::{TakenRow, TakenRows};
use crate::ways::nodes_above;
use f2_bitset::BitSet;
use f2_model::Kind;
use f2_overlay::{Roll, Rolls};
use f2_recover::{BaseRow, PageAt, Walk};
use std::alloc::{AllocError, Global};

/// How many names a directory stands below the root at most.
const MOST_DEPTH: u32 = 15;

/// The size of a row: a directory has none.
fn size_of(kind: Kind, size: u64) -> u64
    ensures { result ≡ size_of_kind kind size }
{
    match kind {
        Kind::Regular => size,
        Kind::Directory => 0,
    }
}

/// How many names something in a directory stands below the root. No base that was read has a directory deeper than `MOST_DEPTH`.
fn depth_below(directory: &BaseRow) -> u32
    ensures { directory.now.depth ≤ most → result ≡ directory.now.depth + 1 }
{
    if directory.depth > MOST_DEPTH {
        return MOST_DEPTH + 1;
    }
    directory.depth + 1
}

/// How many names a file that was marked stands below the root; 0 where its directory isn't there.
fn rolled_depth(walk: &Walk, ino: u32, parent: u32) -> u32
    ensures { IsDepthOf (map.get walk.now.rows ino) (map.get walk.now.rows parent) result }
{
    if let Some(row) = walk.rows.get(ino) {
        return row.depth;
    }
    match walk.rows.get(parent) {
        Some(directory) => depth_below(directory),
        None => 0,
    }
}

/// The row of a file that was marked.
fn rolled_row(
    alloc: Global,
    walk: &Walk,
    rolls: &Rolls,
    ino: u32,
    roll: &Roll,
) -> Result<TakenRow, AllocError>
    requires { map.get rolls.now ino ≡ Some roll.now }
    ensures { IfOk result (λ row. IsOfRoll roll.now (map.get walk.now.rows ino) (map.get walk.now.rows roll.now.parent) row) }
{
    let pages = roll.pages.listed(alloc)?;
    let nodes = nodes_above(alloc, walk, rolls, ino, &pages)?;
    Ok(TakenRow {
        kind: Kind::Regular,
        parent: roll.parent,
        name: roll.name.copy(alloc)?,
        depth: rolled_depth(walk, ino, roll.parent),
        size: roll.size,
        pages,
        nodes,
        changed: true,
    })
}

/// The row of a file or a directory of the base that wasn't marked.
fn base_row(
    alloc: Global,
    walk: &Walk,
    rolls: &Rolls,
    ino: u32,
    row: &BaseRow,
    changed: bool,
) -> Result<TakenRow, AllocError>
    requires base { map.get walk.now.rows ino ≡ Some row.now }
    requires unmarked { map.get rolls.now ino ≡ None }
    ensures { IfOk result (λ taken. IsOfBase row.now taken × (taken.changed ≡ changed)) }
{
    let pages: Vec<PageAt> = row.file.nodes.list.iter().copied().collect(alloc)?;
    let nodes = nodes_above(alloc, walk, rolls, ino, &pages)?;
    Ok(TakenRow {
        kind: row.file.kind,
        parent: row.parent,
        name: row.name.copy(alloc)?,
        depth: row.depth,
        size: size_of(row.file.kind, row.file.size),
        pages,
        nodes,
        changed,
    })
}

/// The row of an ino, or `None` where neither the marks nor the base have it.
fn row_of(
    alloc: Global,
    walk: &Walk,
    rolls: &Rolls,
    changed: &BitSet,
    ino: u32,
) -> Result<Option<TakenRow>, AllocError>
    ensures { IfOk result (λ row. IsMade walk.now.rows (map.get rolls.now ino) (map.get walk.now.rows ino) (set.contains changed.now.members ino) row) }
{
    if let Some(roll) = rolls.get(ino) {
        return Ok(Some(rolled_row(alloc, walk, rolls, ino, roll)?));
    }
    match walk.rows.get(ino) {
        Some(row) => {
            let gains = changed.contains(ino);
            Ok(Some(base_row(alloc, walk, rolls, ino, row, gains)?))
        }
        None => Ok(None),
    }
}

/// The rows of all inos that the node address table has room for.
fn make_rows(
    alloc: Global,
    walk: &Walk,
    rolls: &Rolls,
    changed: &BitSet,
) -> Result<TakenRows, AllocError>
    ensures { IfOk result (λ rows. AreMadeTo rolls.now walk.now.rows changed.now.members (nid_limit walk.now.zones.geom) rows) }
{
    let mut rows = TakenRows::new(alloc);
    for ino in 0..walk.zones.nid_limit() {
        if let Some(row) = row_of(alloc, walk, rolls, changed, ino)? {
            rows.put(ino, row)?;
        }
    }
    Ok(rows)
}

/// What a running volume takes over of an image whose base and marked files were read.
///
/// Each nid that the node address table has room for is looked at twice, each name and each address is copied once, and each
/// page costs a look at the nodes on its way.
pub fn take_over(alloc: Global, walk: &Walk, rolls: &Rolls) -> Result<TakenRows, AllocError>
    ensures rows { IfOk result (λ rows. (image : Image) (ckpt : Checkpoint) → IsBaseRead image ckpt walk.now → HasRightNids image ckpt → AreRolls image ckpt walk.now rolls.now
        → AreRowsOf rolls.now walk.now.rows rows) }
    ensures rooted { IfOk result (λ rows. (image : Image) (ckpt : Checkpoint) → IsBaseRead image ckpt walk.now → HasRightNids image ckpt → HasRightMarks image ckpt
        → AreRolls image ckpt walk.now rolls.now → IsRooted rows) }
{
    let changed = changed_directories(alloc, walk, rolls)?;
    make_rows(alloc, walk, rolls, &changed)
}
