//! The most that a tree which recovery may find takes.
ghost use Rattle.std.specs.Prelude.{◌≡◌, ◌==◌, ◌+◌, ◌^◌, ◌≤◌, ◌<◌, not, cond, IfOk, map as map_list};
ghost use Rattle.std.specs.List.{fold, filter};
ghost use Rattle.f2_model.specs.Count as counts;
ghost use Rattle.f2_model.specs.Fallback as machine;
ghost use Rattle.f2_model.specs.Tree.{is_directory};
ghost use Rattle.f2_reference_calls.specs.Given.{rows_at};
ghost use Rattle.f2_reference_reasons.specs.Boths.{both_of};

use crate::boths::Both;
use crate::recovering::{recoverable, rows_of};
use f2_flights::Inos;
use f2_model::{Kind, Row};
use f2_reference_calls::{data_of_row, nodes_of_row};
use f2_reference_state::Plain;
use std::alloc::{AllocError, Global};

/// What a row takes among rows.
fn taken(alloc: Global, rows: &[&Row], row: &Row) -> Result<Both, AllocError>
    ensures nodes { IfOk result (λ both. both.nodes ≡ counts.nodes_of_row (rows_at rows.now) row.now) }
    ensures pages { IfOk result (λ both. both.pages ≡ counts.data_of_row (rows_at rows.now) row.now) }
    ensures most_nodes { IfOk result (λ both. both.nodes ≤ 2 ^ 64) }
    ensures most_pages { IfOk result (λ both. both.pages ≤ 2 ^ 64) }
{
    Ok(Both {
        nodes: u128::from(nodes_of_row(alloc, rows, row)?),
        pages: u128::from(data_of_row(alloc, rows, row)?),
    })
}

/// The rows of a file among rows.
fn rows_of_file<'a>(alloc: Global, rows: &[&'a Row], ino: u32) -> Result<Vec<&'a Row>, AllocError>
    ensures { IfOk result (λ own. rows_at own.items ≡ filter (λ row. row.ino == ino) (rows_at rows.now)) }
{
    rows.iter()
        .copied()
        .filter(|row| row.ino == ino)
        .collect(alloc)
}

/// The greatest node count and the greatest page count of the rows of a file, each by itself.
#[tactic(auto, using(crate::proofs::Left::next_row))]
fn greatest_of(alloc: Global, rows: &[&Row], ino: u32) -> Result<Both, AllocError>
    ensures exact { IfOk result (λ both. both_of both ≡ machine.greatest_of (rows_at rows.now) ino) }
    ensures nodes { IfOk result (λ both. both.nodes ≤ 2 ^ 64) }
    ensures pages { IfOk result (λ both. both.pages ≤ 2 ^ 64) }
{
    let own = rows_of_file(alloc, rows, ino)?;
    let mut most = Both::none();
    for row in own.as_slice() {
        most = most.or_greater(taken(alloc, rows, row)?);
    }
    Ok(most)
}

/// Whether a row is a directory's.
fn is_directory(row: &Row) -> bool
    ensures { result ≡ is_directory row.now.kind }
{
    match row.kind {
        Kind::Directory => true,
        Kind::Regular => false,
    }
}

/// The rows of regular files among rows.
fn files_among<'a>(alloc: Global, rows: &[&'a Row]) -> Result<Vec<&'a Row>, AllocError>
    ensures { IfOk result (λ files. rows_at files.items ≡ filter (λ row. not (is_directory row.kind)) (rows_at rows.now)) }
{
    rows.iter()
        .copied()
        .filter(|row| !is_directory(row))
        .collect(alloc)
}

/// The inos of rows.
fn inos_of(alloc: Global, rows: &[&Row]) -> Result<Vec<u32>, AllocError>
    ensures { IfOk result (λ inos. inos.items ≡ map_list (λ row. row.ino) (rows_at rows.now)) }
{
    rows.iter().map(|row| row.ino).collect(alloc)
}

/// The inos of the regular files among rows, rising.
fn regular_inos(alloc: Global, rows: &[&Row]) -> Result<Vec<u32>, AllocError>
    ensures { IfOk result (λ inos. inos.items ≡ machine.regular_inos (rows_at rows.now)) }
{
    let files = files_among(alloc, rows)?;
    let inos = inos_of(alloc, files.as_slice())?;
    Inos::of(alloc, inos.as_slice())?.numbers(alloc)
}

/// The sum, over regular files, of the greatest counts of their rows.
#[tactic(auto, using(crate::proofs::Left::next_item))]
fn held_by_files(alloc: Global, rows: &[&Row]) -> Result<Both, AllocError>
    ensures exact { IfOk result (λ both. both_of both ≡ fold (λ total file. machine.sum_of total (machine.greatest_of (rows_at rows.now) file)) machine.nothing (machine.regular_inos (rows_at rows.now))) }
    ensures nodes { IfOk result (λ both. both.nodes < 2 ^ 127) }
    ensures pages { IfOk result (λ both. both.pages < 2 ^ 127) }
{
    let files = regular_inos(alloc, rows)?;
    let mut total = Both::none();
    for file in files.as_slice() {
        total = total.plus(greatest_of(alloc, rows, *file)?);
    }
    Ok(total)
}

/// A sum with what a row takes among rows, where it is a directory's.
fn with_directory(alloc: Global, rows: &[&Row], row: &Row, total: Both) -> Result<Both, AllocError>
    requires nodes { total.nodes < 2 ^ 127 }
    requires pages { total.pages < 2 ^ 127 }
    ensures exact { IfOk result (λ both. both_of both ≡ cond (is_directory row.now.kind) (machine.sum_of (both_of total) (machine.of_directory (rows_at rows.now) row.now.ino)) (both_of total)) }
    ensures nodes { IfOk result (λ both. both.nodes ≤ total.nodes + 2 ^ 64) }
    ensures pages { IfOk result (λ both. both.pages ≤ total.pages + 2 ^ 64) }
{
    match row.kind {
        Kind::Directory => Ok(total.plus(taken(alloc, rows, row)?)),
        Kind::Regular => Ok(total),
    }
}

/// The sum, over the directories among some rows, of what they take with the names that rows have in them.
#[tactic(auto, using(crate::proofs::Left::next_directory))]
fn held_by_directories(alloc: Global, rows: &[&Row], based: &[&Row]) -> Result<Both, AllocError>
    ensures exact { IfOk result (λ both. both_of both ≡ fold (λ total directory. machine.sum_of total (machine.of_directory (rows_at rows.now) directory)) machine.nothing (map_list (λ row. row.ino) (filter (λ row. is_directory row.kind) (rows_at based.now)))) }
    ensures nodes { IfOk result (λ both. both.nodes < 2 ^ 127) }
    ensures pages { IfOk result (λ both. both.pages < 2 ^ 127) }
{
    let mut total = Both::none();
    for row in based {
        total = with_directory(alloc, rows, row, total)?;
    }
    Ok(total)
}

/// The most that a tree which recovery may find takes, were one file fsynced more.
pub fn held(alloc: Global, plain: &Plain, ino: u32) -> Result<Both, AllocError>
    ensures { IfOk result (λ both. both_of both ≡ machine.held plain.now.state ino) }
{
    let rows = recoverable(alloc, plain, ino)?;
    let based = rows_of(alloc, plain.base())?;
    let files = held_by_files(alloc, rows.as_slice())?;
    let directories = held_by_directories(alloc, rows.as_slice(), based.as_slice())?;
    Ok(files.plus(directories))
}
