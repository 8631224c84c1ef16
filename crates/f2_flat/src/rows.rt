//! Which trees have files in the root alone.
ghost use Rattle.std.specs.Prelude.{◌↔◌, IsTrue};
ghost use Rattle.f2_format.specs.Geometry.{IsGeometry};
ghost use Rattle.f2_laid.specs.Laid.{IsStorable};
ghost use Rattle.f2_flat.specs.Flat.{IsFlat, IsRootFile};
ghost use Rattle.f2_flat.specs.Kept.{IsFlatRow};

use f2_layout::Geometry;
use f2_model::{Kind, ROOT, Row, Tree};

/// The most bytes of a file: those of the pages that an inode has addresses for.
pub(crate) const FILE_SIZE: u64 = 3_780_608;

/// Whether a row is that of a file in the root.
fn is_root_file(row: &Row) -> bool
    ensures { IsTrue result ↔ IsRootFile row.now }
{
    row.kind == Kind::Regular && row.parent == ROOT
}

/// Whether a row is the root's, or that of a file in the root, with one of the first so many inos, and isn't too long.
fn is_flat_row(row: &Row, rows: usize) -> bool
    ensures { IsTrue result ↔ IsFlatRow rows row.now }
{
    if row.ino < ROOT || (row.ino - ROOT) as usize >= rows || row.size > FILE_SIZE {
        return false;
    }
    row.ino == ROOT || is_root_file(row)
}

/// Whether a tree that an image can have is one of files in the root alone, whose inos have no gap.
pub(crate) fn is_flat(tree: &Tree, geometry: &Geometry) -> bool
    requires { IsStorable geometry.now tree.now }
    ensures flat { IsTrue result ↔ IsFlat geometry.now tree.now }
    ensures sound { IsGeometry geometry.now }
{
    let rows = tree.len();
    rows <= geometry.cn() as usize && tree.rows().all(|row| is_flat_row(row, rows))
}
