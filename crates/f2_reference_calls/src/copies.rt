//! Copies of rows and trees.
ghost use Rattle.std.specs.Prelude.{◌≡◌, IfOk};
ghost use Rattle.f2_reference_calls.specs.Given.{IsKeyed};

use f2_model::{Pages, Row, Tree};
use std::alloc::{AllocError, Global};

/// Equal pages.
pub(crate) fn copy_pages(alloc: Global, pages: &Pages) -> Result<Pages, AllocError>
    ensures { IfOk result (λ copy. copy ≡ pages.now) }
{
    let mut copy = Pages::new(alloc);
    let numbers = pages.numbers()?;
    for number in numbers.as_slice() {
        if let Some(content) = pages.get(*number) {
            copy.put(*number, content)?;
        }
    }
    Ok(copy)
}

/// An equal row, with copies of its name and its pages.
pub fn copy_row(alloc: Global, row: &Row) -> Result<Row, AllocError>
    ensures { IfOk result (λ copy. copy ≡ row.now) }
{
    Ok(Row {
        ino: row.ino,
        kind: row.kind,
        parent: row.parent,
        name: row.name.copy(alloc)?,
        size: row.size,
        pages: copy_pages(alloc, &row.pages)?,
    })
}

/// An equal tree. Each row has to stand under its own ino, as in every good tree.
pub fn copy_tree(alloc: Global, tree: &Tree) -> Result<Tree, AllocError>
    requires { IsKeyed tree.now }
    ensures { IfOk result (λ copy. copy ≡ tree.now) }
{
    let mut copy = Tree::new(alloc);
    let inos = tree.inos()?;
    for ino in &inos {
        if let Some(row) = tree.get(*ino) {
            copy.put(copy_row(alloc, row)?)?;
        }
    }
    Ok(copy)
}
