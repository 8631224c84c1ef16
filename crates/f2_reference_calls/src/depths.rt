//! How deep rows stand.
ghost use Rattle.std.specs.Prelude.{◌≡◌, ◌≤◌, IfSome};
ghost use Rattle.f2_model.specs.Call.{steps_up, is_too_deep, puts_too_deep};

use f2_model::{Kind, Row, Tree};

/// The deepest that a directory may stand.
pub(crate) const MOST_DEPTH: usize = 15;

/// How many steps lead from a row up to an ino; none where that many are more than `few`.
fn steps_up(tree: &Tree, few: u32, top: u32, row: &Row) -> Option<u32>
    ensures steps { result ≡ steps_up tree.now few top row.now }
    ensures few { IfSome result (λ steps. steps ≤ few) }
{
    if row.ino == top {
        return Some(0);
    }
    if few == 0 {
        return None;
    }
    let steps = steps_up(tree, few - 1, top, tree.get(row.parent)?)?;
    Some(steps + 1)
}

/// Whether a directory at or below a row would stand too deep, were the row moved to a depth.
pub(crate) fn puts_too_deep(tree: &Tree, depth: usize, row: &Row) -> bool
    ensures { result ≡ puts_too_deep tree.now depth row.now }
{
    tree.rows().any(|other| {
        other.kind == Kind::Directory && is_too_deep(depth, steps_up(tree, 16, row.ino, other))
    })
}

/// Whether a row so many steps below a depth stands too deep.
fn is_too_deep(depth: usize, steps: Option<u32>) -> bool
    ensures { result ≡ is_too_deep depth steps }
{
    match steps {
        Some(steps) => depth > MOST_DEPTH || steps as usize > MOST_DEPTH - depth,
        None => false,
    }
}
