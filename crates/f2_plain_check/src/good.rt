//! Whether a tree is good.
ghost use Rattle.std.specs.Prelude.{◌↔◌, IsTrue, IfOk, All};
ghost use Rattle.f2_format.specs.Inode.{SIZE_LIMIT};
ghost use Rattle.f2_model.specs.Tree.{IsGoodTree};
ghost use Rattle.f2_reference_calls.specs.Given.{rows_at};
ghost use Rattle.f2_plain_check.specs.Parts.{IsGoodRow};

use crate::names::are_apart;
use crate::pages::has_good_pages;
use crate::rows::{has_place, has_root, is_keyed, rows_of};
use f2_model::{Row, Tree};
use std::alloc::{AllocError, Global};

/// Whether a row is good where it stands.
fn is_good_row(tree: &Tree, row: &Row) -> Result<bool, AllocError>
    ensures { IfOk result (λ good. IsTrue good ↔ IsGoodRow tree.now row.now) }
{
    Ok(has_place(tree, row) && has_good_pages(row)?)
}

/// Whether each of some rows is good where it stands.
fn are_good_rows(tree: &Tree, rows: &[&Row]) -> Result<bool, AllocError>
    ensures { IfOk result (λ good. IsTrue good ↔ All (IsGoodRow tree.now) (rows_at rows.now)) }
{
    for row in rows {
        if !is_good_row(tree, row)? {
            return Ok(false);
        }
    }
    Ok(true)
}

/// Whether a tree is good.
pub(crate) fn is_good(alloc: Global, tree: &Tree) -> Result<bool, AllocError>
    ensures { IfOk result (λ good. IsTrue good ↔ IsGoodTree SIZE_LIMIT tree.now) }
{
    if !has_root(tree) || !is_keyed(tree)? {
        return Ok(false);
    }
    let rows = rows_of(alloc, tree)?;
    Ok(are_good_rows(tree, rows.as_slice())? && are_apart(alloc, tree)?)
}
