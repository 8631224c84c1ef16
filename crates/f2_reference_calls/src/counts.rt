//! How many nodes and data blocks rows take.
ghost use Rattle.std.specs.Prelude.{◌≡◌, IfOk, OnOk};
ghost use Rattle.std.specs.List.{range_with_len};
ghost use Rattle.std.specs.FinMap as map;
ghost use Rattle.std.specs.FinSet as set;
ghost use Rattle.f2_format.specs.Offsets.{node_count};
ghost use Rattle.f2_model.specs.Count.{dentry_blocks, page_numbers, nodes_of_row, data_of_row, nodes_of_tree, data_of_tree};
ghost use Rattle.f2_reference_calls.specs.Given.{StandOnce, rows_at, set_of, with_all};

use crate::listings::names_in;
use crate::packings::blocks_of_names;
use f2_model::{Kind, Row, Tree};
use f2_shape::path_of;
use std::alloc::{AllocError, Global};

/// The dentry blocks of a directory that has the names that rows have in it.
fn dentry_blocks(alloc: Global, rows: &[&Row], directory: u32) -> Result<u64, AllocError>
    ensures { IfOk result (λ blocks. blocks ≡ dentry_blocks (rows_at rows.now) directory) }
{
    let names = names_in(alloc, rows, directory)?;
    Ok(blocks_of_names(names.as_slice()))
}

/// The numbers from 0 up to another.
fn numbers_to(alloc: Global, end: u64) -> Result<Vec<u64>, AllocError>
    ensures { IfOk result (λ numbers. numbers.items ≡ range_with_len 0 end) }
{
    let mut numbers = Vec::new(alloc);
    for number in 0..end {
        numbers.push(number)?;
    }
    Ok(numbers)
}

/// The rows of a tree, in rising ino.
pub(crate) fn rows_of<'a>(alloc: Global, tree: &'a Tree) -> Result<Vec<&'a Row>, AllocError>
    ensures { IfOk result (λ rows. rows_at rows.items ≡ map.values tree.now) }
{
    tree.rows().collect(alloc)
}

/// The page numbers of a row: a directory's dentry blocks count as its pages.
fn page_numbers(alloc: Global, rows: &[&Row], row: &Row) -> Result<Vec<u64>, AllocError>
    ensures { IfOk result (λ pages. pages.items ≡ page_numbers row.now.kind (rows_at rows.now) row.now) }
{
    match row.kind {
        Kind::Regular => {
            let numbers = row.pages.numbers()?;
            numbers
                .as_slice()
                .iter()
                .map(|number| u64::from(*number))
                .collect(alloc)
        }
        Kind::Directory => numbers_to(alloc, dentry_blocks(alloc, rows, row.ino)?),
    }
}

/// Puts an offset among others, each of which stands there once, unless it is there.
fn add_offset(offsets: &mut Vec<u32>, offset: u32) -> Result<(), AllocError>
    requires { StandOnce offsets.old.items }
    ensures once { StandOnce offsets.new.items }
    ensures added { OnOk result (set_of offsets.new.items ≡ set.insert (set_of offsets.old.items) offset) }
{
    if !offsets.contains(&offset) {
        offsets.push(offset)?;
    }
    Ok(())
}

/// Puts offsets among others.
fn add_offsets(offsets: &mut Vec<u32>, more: &[u32]) -> Result<(), AllocError>
    requires { StandOnce offsets.old.items }
    ensures once { StandOnce offsets.new.items }
    ensures added { OnOk result (set_of offsets.new.items ≡ with_all (set_of offsets.old.items) more.now) }
{
    for offset in more {
        add_offset(offsets, *offset)?;
    }
    Ok(())
}

/// How many nodes a file with these pages has, its inode included.
fn node_count(alloc: Global, pages: &[u64]) -> Result<u64, AllocError>
    ensures { IfOk result (λ count. count ≡ node_count pages.now) }
{
    let mut offsets = Vec::new(alloc);
    add_offset(&mut offsets, 0)?;
    for page in pages {
        if let Some(route) = path_of(*page) {
            add_offsets(&mut offsets, &route.nodes)?;
        }
    }
    Ok(offsets.len() as u64)
}

/// The nodes of a row among rows: its inode and the nodes that its pages need, where a directory's dentry blocks,
/// which follow from the rows that stand in it, count as its pages.
pub fn nodes_of_row(alloc: Global, rows: &[&Row], row: &Row) -> Result<u64, AllocError>
    ensures { IfOk result (λ nodes. nodes ≡ nodes_of_row (rows_at rows.now) row.now) }
{
    let pages = page_numbers(alloc, rows, row)?;
    node_count(alloc, pages.as_slice())
}

/// The data blocks of a row among rows: a file's pages, or a directory's dentry blocks, which follow from the rows
/// that stand in it.
pub fn data_of_row(alloc: Global, rows: &[&Row], row: &Row) -> Result<u64, AllocError>
    ensures { IfOk result (λ blocks. blocks ≡ data_of_row (rows_at rows.now) row.now) }
{
    match row.kind {
        Kind::Regular => Ok(row.pages.len() as u64),
        Kind::Directory => dentry_blocks(alloc, rows, row.ino),
    }
}

/// The nodes of a tree.
pub fn nodes_of_tree(alloc: Global, tree: &Tree) -> Result<u128, AllocError>
    ensures { IfOk result (λ nodes. nodes ≡ nodes_of_tree tree.now) }
{
    let rows = rows_of(alloc, tree)?;
    let mut nodes = 0;
    for row in &rows {
        nodes += u128::from(nodes_of_row(alloc, rows.as_slice(), row)?);
    }
    Ok(nodes)
}

/// The data blocks of a tree.
pub fn data_of_tree(alloc: Global, tree: &Tree) -> Result<u128, AllocError>
    ensures { IfOk result (λ blocks. blocks ≡ data_of_tree tree.now) }
{
    let rows = rows_of(alloc, tree)?;
    let mut blocks = 0;
    for row in &rows {
        blocks += u128::from(data_of_row(alloc, rows.as_slice(), row)?);
    }
    Ok(blocks)
}
