//! What is printed for a tree.
ghost use Rattle.std.specs.Prelude.{◌≡◌, ◌++◌, map as map_list, IfOk, OnOk};
ghost use Rattle.std.specs.FinMap as map;
ghost use Rattle.f2_model.specs.Tree.{is_in as stands_in};
ghost use Rattle.f2_script.specs.Trees.{rows_in as rows_of, shown_path, kind_text, row_line, child_path as path_below, lines_below, tree_spelling};

use crate::texts::{push_argument, push_name};
use crate::weights::weight;
use f2_model::{Kind, Row, Tree};
use std::alloc::{AllocError, Global};
use std::collections::BTreeMap;

/// The ino of the root.
const ROOT: u32 = 3;

/// The levels of a tree: the root's, and those of at most 16 names below it.
const LEVELS: u32 = 17;

/// Whether a row stands in a directory.
fn is_in(row: &Row, directory: u32) -> bool
    ensures { result ≡ stands_in directory row.now }
{
    row.ino != ROOT && row.parent == directory
}

/// The rows of a directory, by their names.
fn rows_in<'a>(
    alloc: Global,
    tree: &'a Tree,
    directory: u32,
) -> Result<BTreeMap<&'a [u8], &'a Row>, AllocError>
    ensures { IfOk result (λ rows. map_list (λ e. (e.0.now, e.1.now)) rows.entries ≡ map.entries (rows_of tree.now directory)) }
{
    let mut rows = BTreeMap::new(alloc);
    for row in tree.rows() {
        if is_in(row, directory) {
            rows.insert(row.name.as_slice(), row)?;
        }
    }
    Ok(rows)
}

/// Writes the path of a row, which is empty for the root.
fn push_shown(text: &mut Vec<u8>, path: &[u8]) -> Result<(), AllocError>
    ensures { OnOk result (text.new.items ≡ text.old.items ++ shown_path path.now) }
{
    if path.is_empty() {
        text.push(b'/')?;
        return Ok(());
    }
    text.extend_from_slice(path)
}

/// Writes what follows a row's path.
fn push_kind(text: &mut Vec<u8>, row: &Row) -> Result<(), AllocError>
    ensures { OnOk result (text.new.items ≡ text.old.items ++ kind_text row.now.kind row.now) }
{
    match row.kind {
        Kind::Directory => text.extend_from_slice(b" dir"),
        Kind::Regular => {
            let weight = weight(&row.pages)?;
            text.extend_from_slice(b" file")?;
            push_argument(text, row.size)?;
            push_argument(text, row.pages.len() as u64)?;
            push_argument(text, weight)
        }
    }
}

/// Writes the line of a row.
fn push_row(text: &mut Vec<u8>, path: &[u8], row: &Row) -> Result<(), AllocError>
    ensures { OnOk result (text.new.items ≡ text.old.items ++ row_line path.now row.now) }
{
    push_shown(text, path)?;
    push_kind(text, row)?;
    text.push(b'\n')?;
    Ok(())
}

/// The path of a row in a directory.
fn child_path(alloc: Global, path: &[u8], child: &Row) -> Result<Vec<u8>, AllocError>
    ensures { IfOk result (λ text. text.items ≡ path_below path.now child.now) }
{
    let mut text = Vec::from_slice(alloc, path)?;
    text.push(b'/')?;
    push_name(&mut text, child.name.as_slice())?;
    Ok(text)
}

/// Writes the lines of a row and of all that stands below it, so many levels in all.
fn push_below(
    alloc: Global,
    text: &mut Vec<u8>,
    tree: &Tree,
    path: &[u8],
    row: &Row,
    levels: u32,
) -> Result<(), AllocError>
    ensures { OnOk result (text.new.items ≡ text.old.items ++ lines_below levels tree.now path.now row.now) }
{
    if levels == 0 {
        return Ok(());
    }
    push_row(text, path, row)?;
    if row.kind != Kind::Directory {
        return Ok(());
    }
    let children = rows_in(alloc, tree, row.ino)?;
    for child in children.values() {
        let below = child_path(alloc, path, child)?;
        push_below(alloc, text, tree, &below, child, levels - 1)?;
    }
    Ok(())
}

/// The text of a tree, depth first: for each row a line that ends with byte 10, a directory before what
/// stands in it, the names of a directory in byte order.
///
/// A directory's line is `PATH dir`, and the root's `/ dir`. A file's is `PATH file SIZE PAGES WEIGHT`: its
/// size in bytes, the number of its pages, and the sum, over the bytes of these, of the byte times its
/// offset plus 1, modulo 2^64. A row more than 16 names below the root, which no good tree has, has no line,
/// and a tree without a root has the empty text.
pub fn tree_text(alloc: Global, tree: &Tree) -> Result<Vec<u8>, AllocError>
    ensures { IfOk result (λ text. text.items ≡ tree_spelling tree.now) }
{
    let mut text = Vec::new(alloc);
    if let Some(root) = tree.get(ROOT) {
        push_below(alloc, &mut text, tree, &[], root, LEVELS)?;
    }
    Ok(text)
}
