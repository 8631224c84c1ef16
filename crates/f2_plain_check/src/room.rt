//! Whether an image has room for a tree.
ghost use Rattle.std.specs.Prelude.{◌↔◌, IsTrue, IfOk, All};
ghost use Rattle.f2_reference_calls.specs.Given.{rows_at};
ghost use Rattle.f2_plain_check.specs.Parts.{HasRoom, HasSpace, HasRoomForAll, IsShortDirectory};

use crate::pages::has_short_file;
use crate::rows::{is_numbered, rows_of};
use f2_layout::Geometry;
use f2_model::{Kind, Row, Tree};
use f2_reference_calls::{data_of_row, data_of_tree, nodes_of_tree};
use f2_shape::INODE_PAGES;
use std::alloc::{AllocError, Global};

/// Whether an inode has room for the addresses of the dentry blocks that a row among rows has where it is a directory.
fn is_short_directory(alloc: Global, rows: &[&Row], row: &Row) -> Result<bool, AllocError>
    ensures { IfOk result (λ short. IsTrue short ↔ IsShortDirectory (rows_at rows.now) row.now) }
{
    Ok(row.kind == Kind::Regular || data_of_row(alloc, rows, row)? <= INODE_PAGES)
}

/// Whether an image has a number and addresses for a row among rows.
fn has_room(
    alloc: Global,
    geometry: &Geometry,
    rows: &[&Row],
    row: &Row,
) -> Result<bool, AllocError>
    ensures { IfOk result (λ room. IsTrue room ↔ HasRoom geometry.now (rows_at rows.now) row.now) }
{
    Ok(is_numbered(geometry, row) && has_short_file(row)? && is_short_directory(alloc, rows, row)?)
}

/// Whether an image has numbers and addresses for each of some rows.
fn have_room(alloc: Global, geometry: &Geometry, rows: &[&Row]) -> Result<bool, AllocError>
    ensures { IfOk result (λ room. IsTrue room ↔ All (HasRoom geometry.now (rows_at rows.now)) (rows_at rows.now)) }
{
    for row in rows {
        if !has_room(alloc, geometry, rows, row)? {
            return Ok(false);
        }
    }
    Ok(true)
}

/// Whether a third of each zone has space for all nodes and data blocks of a tree.
fn has_space(alloc: Global, tree: &Tree, geometry: &Geometry) -> Result<bool, AllocError>
    ensures { IfOk result (λ space. IsTrue space ↔ HasSpace geometry.now tree.now) }
{
    Ok(
        nodes_of_tree(alloc, tree)? <= u128::from(geometry.cn())
            && data_of_tree(alloc, tree)? <= u128::from(geometry.cd()),
    )
}

/// Whether an image has room for a tree: for each row, and for all of them in a third of each zone.
pub(crate) fn fits(alloc: Global, tree: &Tree, geometry: &Geometry) -> Result<bool, AllocError>
    ensures { IfOk result (λ fits. IsTrue fits ↔ HasRoomForAll geometry.now tree.now) }
{
    let rows = rows_of(alloc, tree)?;
    Ok(have_room(alloc, geometry, rows.as_slice())? && has_space(alloc, tree, geometry)?)
}
