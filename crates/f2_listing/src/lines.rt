//! The lines of a tree.
ghost use Rattle.std.specs.Prelude.{◌≡◌, ◌++◌, Err, IfOk, OnOk, None, Some};
ghost use Rattle.std.specs.FinMap as map;
ghost use Rattle.f2_disk.specs.Meter.{HasFailed};
ghost use Rattle.f2_found.specs.Found.{IsFound, IsFoundRow};
ghost use Rattle.f2_found.specs.Places.{AreBelow, IsWithinBlocks};
ghost use Rattle.f2_image.specs.Images.{Image};
ghost use Rattle.f2_model.specs.Tree.{Rows};
ghost use Rattle.f2_model.specs.declared.rows.Row.{Row};
ghost use Rattle.f2_recover.specs.Told.{Tells, OnlyReads};
ghost use Rattle.f2_script.specs.Trees.{kind_text, shown_path, lines_below, tree_spelling};

use crate::faults::ListFault;
use crate::weights::weight;
use f2_disk::Disk;
use f2_found::{Found, FoundRow};
use f2_model::Kind;
use f2_script::{push_argument, push_name};
use std::alloc::{AllocError, Global};

/// The ino of the root.
const ROOT: u32 = 3;

/// The levels of a tree: the root's, and those of at most 16 names below it.
const LEVELS: u32 = 17;

/// Writes the path of a row, which is empty for the root.
fn push_shown(text: &mut Vec<u8>, path: &[u8]) -> Result<(), AllocError>
    ensures { OnOk result (text.new.items ≡ text.old.items ++ shown_path path.now) }
{
    if path.is_empty() {
        text.push(b'/')?;
        return Ok(());
    }
    text.extend_from_slice(path)
}

/// Writes what follows a row's path.
fn push_kind<D: Disk>(disk: &mut D, text: &mut Vec<u8>, found: &FoundRow) -> Result<(), ListFault>
    requires below { AreBelow (D.meter disk.old).blocks found.now.pages }
    ensures text { OnOk result ((image : Image) (row : Row) → Tells (D.contents disk.old) image → IsFoundRow image row found.now → text.new.items ≡ text.old.items ++ kind_text row.kind row) }
    ensures reads { OnlyReads (D.contents disk.old) (D.meter disk.old) (D.contents disk.new) (D.meter disk.new) }
    ensures cause { result ≡ Err ListFault.Read → HasFailed (D.meter disk.old) (D.meter disk.new) }
{
    if found.kind == Kind::Directory {
        text.extend_from_slice(b" dir")?;
        return Ok(());
    }
    let pages = found.pages.as_slice();
    let weight = weight(disk, pages)?;
    text.extend_from_slice(b" file")?;
    push_argument(text, found.size)?;
    push_argument(text, pages.len() as u64)?;
    push_argument(text, weight)?;
    Ok(())
}

/// Writes the lines of a row and of all that stands below it, so many levels in all.
fn push_below<D: Disk>(
    alloc: Global,
    disk: &mut D,
    text: &mut Vec<u8>,
    tree: &Found,
    path: &[u8],
    ino: u32,
    levels: u32,
) -> Result<(), ListFault>
    requires within { IsWithinBlocks (D.meter disk.old).blocks tree.now }
    ensures text { OnOk result ((image : Image) (rows : Rows) (row : Row) → Tells (D.contents disk.old) image → IsFound image rows tree.now → map.get rows ino ≡ Some row
        → text.new.items ≡ text.old.items ++ lines_below levels rows path.now row) }
    ensures none { OnOk result ((image : Image) (rows : Rows) → Tells (D.contents disk.old) image → IsFound image rows tree.now → map.get rows ino ≡ None → text.new.items ≡ text.old.items) }
    ensures reads { OnlyReads (D.contents disk.old) (D.meter disk.old) (D.contents disk.new) (D.meter disk.new) }
    ensures cause { result ≡ Err ListFault.Read → HasFailed (D.meter disk.old) (D.meter disk.new) }
{
    let Some(row) = tree.rows.get(ino) else {
        return Ok(());
    };
    if levels == 0 {
        return Ok(());
    }
    push_shown(text, path)?;
    push_kind(disk, text, row)?;
    text.push(b'\n')?;
    if row.kind == Kind::Regular {
        return Ok(());
    }
    let Some(names) = tree.names.get(ino) else {
        return Ok(());
    };
    for dent in names.dents()? {
        let mut below = Vec::from_slice(alloc, path)?;
        below.push(b'/')?;
        push_name(&mut below, dent.name.as_slice())?;
        push_below(
            alloc,
            disk,
            text,
            tree,
            below.as_slice(),
            dent.ino,
            levels - 1,
        )?;
    }
    Ok(())
}

/// The text of a tree that was found, depth first, as scripts print it: for each row a line that ends with byte 10, a directory
/// before what stands in it, the names of a directory in byte order.
///
/// Each page of the tree is read once. Nothing is written, and after any error the call can be made again.
pub fn tree_text<D: Disk>(alloc: Global, disk: &mut D, tree: &Found) -> Result<Vec<u8>, ListFault>
    requires within { IsWithinBlocks (D.meter disk.old).blocks tree.now }
    ensures text { IfOk result (λ text. (image : Image) (rows : Rows) → Tells (D.contents disk.old) image → IsFound image rows tree.now → text.items ≡ tree_spelling rows) }
    ensures reads { OnlyReads (D.contents disk.old) (D.meter disk.old) (D.contents disk.new) (D.meter disk.new) }
    ensures cause { result ≡ Err ListFault.Read → HasFailed (D.meter disk.old) (D.meter disk.new) }
{
    let mut text = Vec::new(alloc);
    push_below(alloc, disk, &mut text, tree, &[], ROOT, LEVELS)?;
    Ok(text)
}
