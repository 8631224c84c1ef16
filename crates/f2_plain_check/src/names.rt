//! The names of rows in their directories.
ghost use Rattle.std.specs.Prelude.{◌↔◌, IsTrue, IfOk};
ghost use Rattle.f2_reference_calls.specs.Given.{IsKeyed};
ghost use Rattle.f2_plain_check.specs.Parts.{AreApart};

use crate::rows::rows_of;
use f2_model::{ROOT, Tree};
use std::alloc::{AllocError, Global};
use std::collections::BTreeSet;

/// Whether no two rows but the root have one name in one directory. Each row has to stand under its own ino.
pub(crate) fn are_apart(alloc: Global, tree: &Tree) -> Result<bool, AllocError>
    requires { IsKeyed tree.now }
    ensures { IfOk result (λ apart. IsTrue apart ↔ AreApart tree.now) }
{
    let rows = rows_of(alloc, tree)?;
    let mut seen = BTreeSet::new(alloc);
    for row in &rows {
        if row.ino != ROOT && !seen.insert((row.parent, row.name.as_slice()))? {
            return Ok(false);
        }
    }
    Ok(true)
}
