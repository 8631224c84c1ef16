//! A tree, built from the files of an image.
ghost use Rattle.std.specs.Prelude.{◌≡◌, ◌≢◌, ◌≤◌, ◌+◌, ◌<◌, ◌^◌, ℕ, length, Err, IfOk, OnOk, Option};
ghost use Rattle.std.specs.FinMap as map;
ghost use Rattle.f2_disk.specs.Using.{IsCaused, OnlyReads};
ghost use Rattle.f2_image.specs.Images.{Image};
ghost use Rattle.f2_model.specs.Tree.{Rows};
ghost use Rattle.f2_model.specs.declared.rows.Row.{Row as TreeRow};
ghost use Rattle.f2_format.specs.Geometry.{ImageGeometry, nid_limit};
ghost use Rattle.f2_laid.specs.Laid.{PlaceMap, IsStorable, at_of};
ghost use Rattle.f2_laid.specs.declared.stored.Stored.{Stored};
ghost use Rattle.f2_plain_read.specs.Told.{Tells};
ghost use Rattle.f2_plain_read.specs.Reads.{IsLaidOut};
ghost use Rattle.f2_plain_read.specs.Building.{IsBuilt, AreBelow, IsTableFor, TakesContent, IsTakable, IsNamedBy};

use crate::dentries::dents_of;
use crate::faults::{BuildFault, ReadFault};
use crate::files::{read_file, read_pages};
use crate::names::{Bound, Names};
use f2_disk::Disk;
use f2_laid::Places;
use f2_model::{Kind, Name, Pages, Row, Tree};
use std::alloc::Global;

/// The ino of the root.
const ROOT: u32 = 3;

/// What was read of files: rows without their names, the names that directories bind, and where the files stand.
#[derive(Debug, Drop)]
pub(crate) struct Built {
    pub rows: Tree,
    pub names: Names,
    pub places: Places,
}

/// Reads the files of a table.
pub(crate) fn read_files<D: Disk>(
    alloc: Global,
    disk: &mut D,
    table: &[u32],
) -> Result<Built, ReadFault>
    requires { length table.now < 2 ^ 32 }
    ensures built { IfOk result (λ built. (image : Image) → Tells (D.contents disk.old) image → (tree : Rows) (stored : Stored)
        → IsLaidOut image tree stored → IsTableFor table.now stored.places → IsBuilt tree stored.places (length table.now) built) }
    ensures keys { IfOk result (λ built. AreBelow (length table.now) built.places) }
    ensures bad { result ≡ Err ReadFault.Bad → (image : Image) → Tells (D.contents disk.old) image → (tree : Rows) (stored : Stored)
        → IsLaidOut image tree stored → ¬ (IsTableFor table.now stored.places) }
    ensures reads { OnlyReads D.contents D.meter disk.old disk.new }
    ensures cause { IsCaused ReadFault.Read result D.meter disk.old disk.new }
{
    let mut built = Built {
        rows: Tree::new(alloc),
        names: Names::new(alloc),
        places: Places::new(alloc),
    };
    for (ino, at) in table.iter().enumerate() {
        if *at != 0 {
            add_file(alloc, disk, &mut built, ino as u32, *at)?;
        }
    }
    Ok(built)
}

/// Reads the file whose inode stands at an address.
fn add_file<D: Disk>(
    alloc: Global,
    disk: &mut D,
    built: &mut Built,
    ino: u32,
    at: u32,
) -> Result<(), ReadFault>
    requires { at ≢ 0 }
    ensures built { OnOk result ((image : Image) → Tells (D.contents disk.old) image → (tree : Rows) (stored : Stored) → IsLaidOut image tree stored
        → at ≡ at_of (map.get stored.places ino) → IsBuilt tree stored.places ino built.old → IsBuilt tree stored.places (ino + 1) built.new) }
    ensures keys { OnOk result ((limit : ℕ) → ino < limit → AreBelow limit built.old.places → AreBelow limit built.new.places) }
    ensures bad { result ≡ Err ReadFault.Bad → (image : Image) → Tells (D.contents disk.old) image → (tree : Rows) (stored : Stored) → IsLaidOut image tree stored
        → at ≡ at_of (map.get stored.places ino) → ¬ (IsBuilt tree stored.places ino built.old) }
    ensures reads { OnlyReads D.contents D.meter disk.old disk.new }
    ensures cause { IsCaused ReadFault.Read result D.meter disk.old disk.new }
{
    let file = read_file(alloc, disk, ino, at)?;
    let pages = read_pages(alloc, disk, &file.place)?;
    let pages = take_content(alloc, &mut built.names, ino, file.kind, pages)?;
    built.places.put(ino, file.place)?;
    built.rows.put(Row {
        ino,
        kind: file.kind,
        parent: 0,
        name: Name::new(alloc),
        size: file.size,
        pages,
    })?;
    Ok(())
}

/// The pages of a file as its row has them; those of a directory are gone once its names are bound.
fn take_content(
    alloc: Global,
    names: &mut Names,
    ino: u32,
    kind: Kind,
    pages: Pages,
) -> Result<Pages, BuildFault>
    ensures taken { IfOk result (λ left. TakesContent kind ino pages names.old names.new left) }
    ensures bad { result ≡ Err BuildFault.Bad → ¬ (IsTakable kind ino pages names.old) }
{
    match kind {
        Kind::Regular => Ok(pages),
        Kind::Directory => {
            let dents = dents_of(alloc, &pages)?;
            names.bind_all(ino, dents)?;
            Ok(Pages::new(alloc))
        }
    }
}

/// The tree of rows below a limit, each under its name. `Bad` is for a row without a name, and for a root with one.
pub(crate) fn name_rows(
    alloc: Global,
    built: Built,
    limit: u32,
) -> Result<(Tree, Places), BuildFault>
    ensures tree { IfOk result (λ named. (geom : ImageGeometry) (tree : Rows) (stood : PlaceMap) → IsStorable geom tree → limit ≡ nid_limit geom → IsBuilt tree stood limit built → named.0 ≡ tree) }
    ensures places { IfOk result (λ named. named.1 ≡ built.places) }
    ensures bad { result ≡ Err BuildFault.Bad → (geom : ImageGeometry) (tree : Rows) (stood : PlaceMap) → IsStorable geom tree → limit ≡ nid_limit geom → ¬ (IsBuilt tree stood limit built) }
{
    let Built {
        mut rows,
        mut names,
        places,
    } = built;
    let mut tree = Tree::new(alloc);
    for ino in 0..limit {
        if let Some(row) = rows.remove(ino) {
            tree.put(name_row(row, names.take(ino))?)?;
        }
    }
    Ok((tree, places))
}

/// A row under its name.
fn name_row(row: Row, bound: Option<Bound>) -> Result<Row, BuildFault>
    ensures named { IfOk result (λ named. (whole : TreeRow) → IsNamedBy whole row bound → named ≡ whole) }
    ensures own { IfOk result (λ named. named.ino ≡ row.ino) }
    ensures bad { result ≡ Err BuildFault.Bad → (whole : TreeRow) → ¬ (IsNamedBy whole row bound) }
{
    match bound {
        None if row.ino == ROOT => Ok(Row {
            parent: ROOT,
            ..row
        }),
        Some(Bound { parent, name }) if row.ino != ROOT => Ok(Row {
            parent,
            name,
            ..row
        }),
        _ => Err(BuildFault::Bad),
    }
}
