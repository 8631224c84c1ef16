//! What each row of a tree has to be by itself, and where it stands.
ghost use Rattle.std.specs.Prelude.{◌↔◌, ◌≡◌, IsTrue, IfOk};
ghost use Rattle.std.specs.FinMap as map;
ghost use Rattle.f2_reference_calls.specs.Given.{IsKeyed, rows_at};
ghost use Rattle.f2_plain_check.specs.Parts.{IsSoAt, HasIno, HasRoot, HasParent, IsNamed, IsNumbered, StandsWithin, IsReached, HasPlace};

use f2_layout::Geometry;
use f2_model::{Kind, ROOT, Row, Tree};
use std::alloc::{AllocError, Global};

/// The least ino of a row but the root.
const FIRST_INO: u32 = 4;

/// The entries of a block of the node address table.
const ENTRIES_A_NAT_BLOCK: u32 = 455;

/// The deepest that a directory may stand; a file may stand one below.
const MOST_DEPTH: u32 = 15;

/// The rows of a tree, in rising ino.
pub(crate) fn rows_of<'a>(alloc: Global, tree: &'a Tree) -> Result<Vec<&'a Row>, AllocError>
    ensures { IfOk result (λ rows. rows_at rows.items ≡ map.values tree.now) }
{
    tree.rows().collect(alloc)
}

/// Whether the root is there, as a directory without a name that is its own parent.
pub(crate) fn has_root(tree: &Tree) -> bool
    ensures { IsTrue result ↔ HasRoot tree.now }
{
    tree.get(ROOT).is_some_and(|row| {
        row.ino == ROOT && row.kind == Kind::Directory && row.parent == ROOT && row.name.is_empty()
    })
}

/// Whether the row of an ino, if there is one, has that ino.
fn has_ino(tree: &Tree, ino: u32) -> bool
    ensures { IsTrue result ↔ IsSoAt tree.now HasIno ino }
{
    tree.get(ino).is_none_or(|row| row.ino == ino)
}

/// Whether each row stands under its own ino.
pub(crate) fn is_keyed(tree: &Tree) -> Result<bool, AllocError>
    ensures { IfOk result (λ keyed. IsTrue keyed ↔ IsKeyed tree.now) }
{
    let inos = tree.inos()?;
    Ok(inos.iter().all(|ino| has_ino(tree, *ino)))
}

/// Whether a row stands in a directory of the tree.
fn has_parent(tree: &Tree, row: &Row) -> bool
    ensures { IsTrue result ↔ HasParent tree.now row.now }
{
    tree.get(row.parent)
        .is_some_and(|up| up.kind == Kind::Directory)
}

/// Whether a row but the root has a good name.
fn is_named(row: &Row) -> bool
    ensures { IsTrue result ↔ IsNamed row.now }
{
    row.ino == ROOT || row.name.is_good()
}

/// Whether the number of a row is the root's, or one from 4 on that the node address table has.
pub(crate) fn is_numbered(geometry: &Geometry, row: &Row) -> bool
    ensures { IsTrue result ↔ IsNumbered geometry.now row.now }
{
    (row.ino == ROOT || row.ino >= FIRST_INO) && row.ino < ENTRIES_A_NAT_BLOCK * geometry.nat()
}

/// Whether an ino stands at most so many names below the root.
fn stands_within(tree: &Tree, most: u32, ino: u32) -> bool
    ensures { IsTrue result ↔ StandsWithin tree.now most ino }
{
    if ino == ROOT {
        return true;
    }
    if most == 0 {
        return false;
    }
    match tree.get(ino) {
        Some(row) => stands_within(tree, most - 1, row.parent),
        None => false,
    }
}

/// Whether a row stands no deeper than its kind may.
fn is_reached(tree: &Tree, row: &Row) -> bool
    ensures { IsTrue result ↔ IsReached tree.now row.now }
{
    let most = match row.kind {
        Kind::Directory => MOST_DEPTH,
        Kind::Regular => MOST_DEPTH + 1,
    };
    stands_within(tree, most, row.ino)
}

/// Whether a row has a place in a tree: a directory, a good name, and no more depth than its kind may have.
pub(crate) fn has_place(tree: &Tree, row: &Row) -> bool
    ensures { IsTrue result ↔ HasPlace tree.now row.now }
{
    has_parent(tree, row) && is_named(row) && is_reached(tree, row)
}
