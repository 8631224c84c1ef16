//! The rows that a recovery may put together.
ghost use Rattle.std.specs.Prelude.{◌≡◌, ◌++◌, IfOk, OnOk, map as map_list};
ghost use Rattle.std.specs.FinMap as map;
ghost use Rattle.std.specs.List.{filter_map};
ghost use Rattle.f2_model.specs.Fallback as machine;
ghost use Rattle.f2_reference_calls.specs.Given.{rows_at};
ghost use Rattle.f2_reference_state.specs.Parts.{mark_of};

use f2_model::{Row, Tree};
use f2_reference_state::{Mark, Plain};
use std::alloc::{AllocError, Global};

/// The rows of a tree, in rising ino.
pub(crate) fn rows_of<'a>(alloc: Global, tree: &'a Tree) -> Result<Vec<&'a Row>, AllocError>
    ensures { IfOk result (λ rows. rows_at rows.items ≡ map.values tree.now) }
{
    tree.rows().collect(alloc)
}

/// Appends the rows of marks. Where memory is refused some of them may be there.
fn push_marked<'a>(rows: &mut Vec<&'a Row>, marks: &'a [Mark]) -> Result<(), AllocError>
    ensures { OnOk result (rows_at rows.new.items ≡ rows_at rows.old.items ++ map_list (λ mark. mark.row) (map_list mark_of marks.now)) }
{
    for mark in marks {
        rows.push(&mark.row)?;
    }
    Ok(())
}

/// Appends the rows that inos have in a tree. Where memory is refused some of them may be there.
fn push_found<'a>(rows: &mut Vec<&'a Row>, tree: &'a Tree, inos: &[u32]) -> Result<(), AllocError>
    ensures { OnOk result (rows_at rows.new.items ≡ rows_at rows.old.items ++ filter_map (map.get tree.now) inos.now) }
{
    for ino in inos {
        if let Some(row) = tree.get(*ino) {
            rows.push(row)?;
        }
    }
    Ok(())
}

/// The rows of the base, of the marks, of the fsyncs in flight, and of one file more.
pub(crate) fn recoverable<'a>(
    alloc: Global,
    plain: &'a Plain,
    ino: u32,
) -> Result<Vec<&'a Row>, AllocError>
    ensures { IfOk result (λ rows. rows_at rows.items ≡ machine.recoverable plain.now.state ino) }
{
    let mut inos = plain.flights().frozen_inos(alloc)?;
    inos.push(ino)?;
    let mut rows = rows_of(alloc, plain.base())?;
    push_marked(&mut rows, plain.marks())?;
    push_found(&mut rows, plain.live(), inos.as_slice())?;
    Ok(rows)
}
