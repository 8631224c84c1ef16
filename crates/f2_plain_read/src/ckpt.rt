//! The sizes of an image, and its newest checkpoint.
ghost use Rattle.std.specs.Prelude.{◌≡◌, ◌≤◌, ◌<◌, length, Err, IfOk, IfSome, IfNone, OnOk, IsTrue, ◌↔◌};
ghost use Rattle.f2_disk.specs.Using.{IsCaused, OnlyReads};
ghost use Rattle.f2_format.specs.Geometry.{ImageGeometry};
ghost use Rattle.f2_format.specs.Superblock.{super_geom};
ghost use Rattle.f2_image.specs.Images.{Image, block_at, IsSized, IsRightCopy};
ghost use Rattle.f2_image.specs.Packs.{Side as ImageSide, IsValid};
ghost use Rattle.f2_image.specs.Faults.{MOST_VERSION as most_version};
ghost use Rattle.f2_model.specs.Tree.{Rows};
ghost use Rattle.f2_laid.specs.Laid.{IsLaid};
ghost use Rattle.f2_laid.specs.declared.stored.Stored.{Stored};
ghost use Rattle.f2_plain_read.specs.Told.{Tells};
ghost use Rattle.f2_plain_read.specs.Points.{IsNewestPack, IsPointOf, IsPlain, HaveOneCopy};

use crate::blocks::read_block;
use crate::faults::ReadFault;
use f2_bytes::get16;
use f2_disk::Disk;
use f2_layout::{Geometry, read_super};
use f2_nat_block::Bitmap;
use f2_pack::{Pack, Side, newest, read_pack};
use std::alloc::Global;

/// The greatest version of a checkpoint that is taken.
const MOST_VERSION: u64 = 4_000_000_000;

/// Where a summary has the number of its journal's entries.
const JOURNAL_COUNT_AT: usize = 3584;

/// What the newest checkpoint of an image tells.
#[derive(Debug, Drop)]
pub(crate) struct Point {
    pub geometry: Geometry,
    pub side: Side,
    pub version: u64,
    /// Whether the second copy of the node address table counts.
    pub second: bool,
}

/// The checkpoint of an image whose journal is empty, whose table counts in one copy, and whose version is taken.
pub(crate) fn read_point<D: Disk>(alloc: Global, disk: &mut D) -> Result<Point, ReadFault>
    ensures found { IfOk result (λ ckpt. (image : Image) → Tells (D.contents disk.old) image
        → (tree : Rows) (stored : Stored) → IsLaid image tree stored → IsPointOf stored ckpt) }
    ensures fits { IfOk result (λ ckpt. ckpt.geometry.blocks ≤ (D.meter disk.old).blocks) }
    ensures version { IfOk result (λ ckpt. ckpt.version ≤ most_version) }
    ensures bad { result ≡ Err ReadFault.Bad → (image : Image) → Tells (D.contents disk.old) image
        → (tree : Rows) (stored : Stored) → stored.version ≤ most_version → ¬ (IsLaid image tree stored) }
    ensures reads { OnlyReads D.contents D.meter disk.old disk.new }
    ensures cause { IsCaused ReadFault.Read result D.meter disk.old disk.new }
{
    let geometry = read_geometry(alloc, disk)?;
    let (pack, side) = read_newest(alloc, disk, &geometry)?;
    let second = pack.head.bitmap.get(0);
    if !is_plain(&pack, geometry.nat(), second) {
        return Err(ReadFault::Bad);
    }
    Ok(Point {
        geometry,
        side,
        version: pack.head.version,
        second,
    })
}

/// The sizes of an image: those of the first right copy of its superblock.
fn read_geometry<D: Disk>(alloc: Global, disk: &mut D) -> Result<Geometry, ReadFault>
    ensures sized { IfOk result (λ geometry. (image : Image) → Tells (D.contents disk.old) image → IsSized image geometry) }
    ensures fits { IfOk result (λ geometry. geometry.blocks ≤ (D.meter disk.old).blocks) }
    ensures bad { result ≡ Err ReadFault.Bad → (image : Image) → Tells (D.contents disk.old) image → (geom : ImageGeometry) → ¬ (IsSized image geom) }
    ensures reads { OnlyReads D.contents D.meter disk.old disk.new }
    ensures cause { IsCaused ReadFault.Read result D.meter disk.old disk.new }
{
    if let Some(geometry) = read_copy(alloc, disk, 0)? {
        return Ok(geometry);
    }
    read_copy(alloc, disk, 1)?.ok_or(ReadFault::Bad)
}

/// The sizes that a copy of the superblock tells, or `None` where it isn't right.
fn read_copy<D: Disk>(alloc: Global, disk: &mut D, at: u32) -> Result<Option<Geometry>, ReadFault>
    ensures right { IfOk result (λ found. IfSome found (λ geometry. (image : Image) → Tells (D.contents disk.old) image
        → IsRightCopy image at × (geometry ≡ super_geom (block_at image at)))) }
    ensures wrong { IfOk result (λ found. IfNone found ((image : Image) → Tells (D.contents disk.old) image → ¬ (IsRightCopy image at))) }
    ensures fits { IfOk result (λ found. IfSome found (λ geometry. geometry.blocks ≤ (D.meter disk.old).blocks)) }
    ensures bad { result ≡ Err ReadFault.Bad → (image : Image) → Tells (D.contents disk.old) image → length image ≤ at }
    ensures reads { OnlyReads D.contents D.meter disk.old disk.new }
    ensures cause { IsCaused ReadFault.Read result D.meter disk.old disk.new }
{
    let device = disk.blocks();
    let mut block = Box::new(alloc, [0; 4096])?;
    read_block(disk, at, &mut block)?;
    Ok(read_super(&block, device).ok())
}

/// The newest valid pack, and its side.
fn read_newest<D: Disk>(
    alloc: Global,
    disk: &mut D,
    geometry: &Geometry,
) -> Result<(Pack, Side), ReadFault>
    requires { geometry.now.blocks ≤ (D.meter disk.old).blocks }
    ensures newest { IfOk result (λ found. (image : Image) → Tells (D.contents disk.old) image → IsNewestPack geometry.now image found.0 found.1) }
    ensures bad { result ≡ Err ReadFault.Bad → (image : Image) → Tells (D.contents disk.old) image → (side : ImageSide) → ¬ (IsValid geometry.now image side) }
    ensures reads { OnlyReads D.contents D.meter disk.old disk.new }
    ensures cause { IsCaused ReadFault.Read result D.meter disk.old disk.new }
{
    let a = read_pack(alloc, disk, geometry, Side::A)?;
    let b = read_pack(alloc, disk, geometry, Side::B)?;
    match newest(a, b) {
        Ok(found) => Ok(found),
        Err(_) => Err(ReadFault::Bad),
    }
}

/// Whether a pack's journal is empty, its version is taken, and it names one copy of the table.
fn is_plain(pack: &Pack, nat: u32, second: bool) -> bool
    requires { nat ≤ 1024 }
    ensures { IsTrue result ↔ IsPlain pack.now nat second }
{
    get16(&pack.summary, JOURNAL_COUNT_AT) == 0
        && pack.head.version <= MOST_VERSION
        && is_one_copy(&pack.head.bitmap, nat, second)
}

/// Whether the bitmap names the same copy of each block of the table.
fn is_one_copy(bitmap: &Bitmap, nat: u32, second: bool) -> bool
    requires { nat ≤ 1024 }
    ensures { IsTrue result ↔ HaveOneCopy bitmap.now nat second }
{
    for block in 0..nat {
        if bitmap.get(block) != second {
            return false;
        }
    }
    true
}
