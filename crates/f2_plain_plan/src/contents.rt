//! What the pages of a row hold.
ghost use Rattle.std.specs.Prelude.{◌≡◌, All, IfOk, Some};
ghost use Rattle.std.specs.FinMap as map;
ghost use Rattle.std.specs.Option.{option_copied};
ghost use Rattle.f2_dentry_block.specs.Packed.{HasNameLength};
ghost use Rattle.f2_format.specs.Geometry.{ImageGeometry};
ghost use Rattle.f2_laid.specs.Laid.{IsStorable};
ghost use Rattle.f2_model.specs.Tree.{Rows};
ghost use Rattle.f2_plain_plan.specs.Contents.{IsContentOf, content_at};
ghost use Rattle.f2_plain_plan.specs.Directories.{IsNamesOf, dents_in};

use crate::directories::Directories;
use f2_disk::Block;
use f2_model::{Kind, Pages, Row};
use std::alloc::AllocError;

/// What the pages of a row hold: the bytes of a file, or the dentry blocks of a directory.
#[derive(Drop)]
pub(crate) enum Contents<'a> {
    File(&'a Pages),
    Directory(Vec<Block>),
}

impl Contents<'_> {
    /// The content of a page, or `None` where it isn't there.
    pub(crate) fn get(&self, page: u32) -> Option<&Block>
        ensures { option_copied result ≡ content_at self.now page }
    {
        match self {
            Contents::File(pages) => pages.get(page),
            Contents::Directory(blocks) => blocks.get(page as usize),
        }
    }
}

/// What the pages of a row hold.
pub(crate) fn contents_of<'a>(
    directories: &Directories,
    row: &'a Row,
) -> Result<Contents<'a>, AllocError>
    requires { All (λ dent. HasNameLength dent.name) (dents_in directories.now row.now.ino) }
    ensures { (geom : ImageGeometry) (tree : Rows) → IsStorable geom tree → IsNamesOf tree directories.now → map.get tree row.now.ino ≡ Some row.now
        → IfOk result (λ contents. IsContentOf tree row.now (content_at contents)) }
{
    match row.kind {
        Kind::Regular => Ok(Contents::File(&row.pages)),
        Kind::Directory => Ok(Contents::Directory(directories.blocks_of(row.ino)?)),
    }
}
