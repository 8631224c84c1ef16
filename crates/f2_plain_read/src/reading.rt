//! Reading a tree.
ghost use Rattle.std.specs.Prelude.{◌≡◌, ◌≢◌, ◌≤◌, ℕ, Err, IfOk, IfSome};
ghost use Rattle.f2_disk.specs.Contents.{latest};
ghost use Rattle.f2_disk.specs.Using.{IsCaused, OnlyReads};
ghost use Rattle.f2_image.specs.Images.{Image};
ghost use Rattle.f2_image.specs.Faults.{MOST_VERSION};
ghost use Rattle.f2_model.specs.Tree.{Rows};
ghost use Rattle.f2_laid.specs.declared.stored.Stored.{Stored as Told};
ghost use Rattle.f2_plain_read.specs.Reads.{IsAllLaidIn, IsSoundOn, HasNoneLaid};
ghost use Rattle.f2_plain_read.specs.Building.{AreBelow};
ghost use Rattle.f2_plain_read.specs.Finding.{IsReadOf};

use crate::built::{Built, name_rows, read_files};
use crate::ckpt::{Point, read_point};
use crate::faults::{BuildFault, ReadFault};
use crate::kept::is_kept;
use crate::table::read_table;
use f2_disk::Disk;
use f2_laid::Stored;
use f2_model::Tree;
use f2_plain_check::is_storable;
use std::alloc::Global;

/// What was found in an image.
#[derive(Debug, Drop)]
pub struct Found {
    /// The tree of its last checkpoint.
    pub tree: Tree,
    /// What that checkpoint tells of the image.
    pub stored: Stored,
}

/// The tree that is laid out plainly in the image of a disk, and what its checkpoint tells.
///
/// It reads the superblock, both packs, one copy of the node address table, and each file with its pages, and writes
/// nothing. The whole tree is held in memory, with four bytes for each nid.
///
/// `Read` comes only where a read of the disk failed, `Memory` only where memory was refused, and `Bad` where no tree
/// is laid out plainly, or its version is above 4,000,000,000. Whatever the disk gives, a tree that is found can be
/// stored again, and its files stand apart and in their zones; so bytes that no checkpoint wrote are refused, or give
/// some tree that can be worked with.
pub fn read<D: Disk>(alloc: Global, disk: &mut D) -> Result<Found, ReadFault>
    ensures found { IfOk result (λ found. IfSome (D.contents disk.old) (λ lists. IsAllLaidIn (latest lists) found.tree found.stored)) }
    ensures sound { IfOk result (λ found. IsSoundOn (D.meter disk.old).blocks found.tree found.stored) }

    // No tree is refused that is laid out plainly under a version that a mount takes.
    ensures bad { result ≡ Err ReadFault.Bad → IfSome (D.contents disk.old) (λ lists. HasNoneLaid (latest lists)) }

    ensures reads { OnlyReads D.contents D.meter disk.old disk.new }
    ensures cause { IsCaused ReadFault.Read result D.meter disk.old disk.new }
{
    let ckpt = read_point(alloc, disk)?;
    let table = read_table(alloc, disk, &ckpt.geometry, ckpt.second)?;
    let built = read_files(alloc, disk, &table)?;
    let found = found_of(alloc, ckpt, built, table.len() as u32)?;
    Ok(found)
}

/// What was found, where its tree can be stored and its places are kept.
fn found_of(alloc: Global, ckpt: Point, built: Built, limit: u32) -> Result<Found, BuildFault>
    requires below { AreBelow limit built.places }
    requires version { ckpt.version ≤ MOST_VERSION }
    ensures found { IfOk result (λ found. (image : Image) (tree : Rows) (stored : Told) → IsReadOf image tree stored ckpt limit built → (found.tree ≡ tree) × (found.stored ≡ stored)) }
    ensures sound { IfOk result (λ found. (blocks : ℕ) → ckpt.geometry.blocks ≤ blocks → IsSoundOn blocks found.tree found.stored) }
    ensures bad { result ≡ Err BuildFault.Bad → (image : Image) (tree : Rows) (stored : Told) → ¬ (IsReadOf image tree stored ckpt limit built) }
{
    let (tree, places) = name_rows(alloc, built, limit)?;
    if !is_storable(alloc, &tree, &ckpt.geometry)?
        || !is_kept(alloc, &ckpt.geometry, &places, limit)?
    {
        return Err(BuildFault::Bad);
    }
    let stored = Stored {
        geometry: ckpt.geometry,
        side: ckpt.side,
        version: ckpt.version,
        second: ckpt.second,
        places,
    };
    Ok(Found { tree, stored })
}
