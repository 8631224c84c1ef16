//! Names and counts taken of a whole tree.
ghost use Rattle.std.specs.Prelude.{◌≡◌, ◌^◌, ◌<◌, IfOk, OnOk};
ghost use Rattle.std.specs.FinMap as map;
ghost use Rattle.f2_flat.specs.Kept.{AreCounts, slots_of_tree, pages_of_tree, with_row, with_rows};

use crate::counts::{Counts, slots_of};
use f2_dir::Dir;
use f2_model::{Kind, ROOT, Row, Tree};
use std::alloc::{AllocError, Global};

/// Binds the name of a row to its ino; the root has no name. An error leaves the names as they were.
fn bind(alloc: Global, names: &mut Dir, row: &Row) -> Result<(), AllocError>
    ensures { OnOk result (names.new ≡ with_row names.old row.now) }
{
    if row.ino == ROOT {
        return Ok(());
    }
    names.put(row.name.copy(alloc)?, row.ino, Kind::Regular)
}

/// The names of all rows but the root, each bound to its ino.
pub(crate) fn names_of(alloc: Global, tree: &Tree) -> Result<Dir, AllocError>
    ensures { IfOk result (λ names. names ≡ with_rows map.empty (map.values tree.now)) }
{
    let mut names = Dir::new(alloc);
    for row in tree.rows() {
        bind(alloc, &mut names, row)?;
    }
    Ok(names)
}

/// What all rows take.
pub(crate) fn counts_of(tree: &Tree) -> Counts
    requires slots { slots_of_tree tree.now < 2 ^ 64 }
    requires pages { pages_of_tree tree.now < 2 ^ 64 }
    ensures { AreCounts tree.now result }
{
    let mut counts = Counts { slots: 0, pages: 0 };
    for row in tree.rows() {
        counts.slots += slots_of(&row.name);
        counts.pages += row.pages.len() as u64;
    }
    counts
}
