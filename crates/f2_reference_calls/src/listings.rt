//! The names in a directory.
ghost use Rattle.std.specs.Prelude.{◌≡◌, IfOk, map as map_list};
ghost use Rattle.f2_reference_calls.specs.Given.{listed, rows_at};

use crate::walks::is_in;
use f2_model::{Name, Names, Row};
use std::alloc::{AllocError, Global};
use std::collections::BTreeSet;

/// The names that rows have in a directory, borrowed and in order.
fn sorted_names<'a>(
    alloc: Global,
    rows: &[&'a Row],
    directory: u32,
) -> Result<BTreeSet<&'a [u8]>, AllocError>
    ensures { IfOk result (λ names. map_list (λ name. name.now) names.keys ≡ listed (rows_at rows.now) directory) }
{
    let mut names = BTreeSet::new(alloc);
    for row in rows {
        if is_in(row, directory) {
            names.insert(row.name.as_slice())?;
        }
    }
    Ok(names)
}

/// The names that rows have in a directory, in byte order, each once.
pub(crate) fn names_in(alloc: Global, rows: &[&Row], directory: u32) -> Result<Names, AllocError>
    ensures { IfOk result (λ names. names ≡ listed (rows_at rows.now) directory) }
{
    let mut names = Names::new(alloc);
    for name in &sorted_names(alloc, rows, directory)? {
        names.push(Name::from_slice(alloc, name)?)?;
    }
    Ok(names)
}
