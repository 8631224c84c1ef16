//! The newest checkpoint of an image, by its two packs.
ghost use Rattle.std.specs.Prelude.{◌≡◌, ◌≤◌, Err, IfErr, IfOk, IsTrue};
ghost use Rattle.f2_disk.specs.Meter.{HasFailed};
ghost use Rattle.f2_format.specs.Geometry.{is_in_node};
ghost use Rattle.f2_image.specs.Images.{Image, IsSized};
ghost use Rattle.f2_pack.specs.Packs.{IsPackOf};
ghost use Rattle.f2_recover.specs.Told.{Tells, OnlyReads};
ghost use Rattle.f2_start.specs.Starts.{IsNewestPack, IsStanding};

use f2_disk::{Disk, ReadFault};
use f2_layout::Geometry;
use f2_pack::{Pack, Side, newest, read_pack};
use f2_recover::{BadImage, MountFault};
use std::alloc::Global;

/// The newest valid pack, and its side. `NoCheckpoint` is told where neither pack is valid.
///
/// The log of a pack that is valid begins in the node zone. It is looked at once more, so that this holds on a disk that
/// doesn't tell what it holds too.
pub(crate) fn read_newest<D: Disk>(
    alloc: Global,
    disk: &mut D,
    geometry: &Geometry,
) -> Result<(Pack, Side), MountFault>
    requires { geometry.now.blocks ≤ (D.meter disk.old).blocks }
    ensures newest { IfOk result (λ found. (image : Image) → Tells (D.contents disk.old) image → IsNewestPack geometry.now image found.0 found.1) }
    ensures log { IfOk result (λ found. IsTrue (is_in_node geometry.now found.0.head.log_start)) }
    ensures fault { IfErr result (λ fault. (image : Image) → Tells (D.contents disk.old) image → IsSized image geometry.now → IsStanding image fault) }
    ensures reads { OnlyReads (D.contents disk.old) (D.meter disk.old) (D.contents disk.new) (D.meter disk.new) }
    ensures cause { result ≡ Err MountFault.Read → HasFailed (D.meter disk.old) (D.meter disk.new) }
{
    let a = read_side(alloc, disk, geometry, Side::A)?;
    let b = read_side(alloc, disk, geometry, Side::B)?;
    match newest(a, b) {
        Ok((pack, side)) if geometry.in_node(pack.head.log_start) => Ok((pack, side)),
        _ => Err(MountFault::Bad(BadImage::NoCheckpoint)),
    }
}

/// The pack on a side, or `None` where that isn't valid.
fn read_side<D: Disk>(
    alloc: Global,
    disk: &mut D,
    geometry: &Geometry,
    side: Side,
) -> Result<Option<Pack>, MountFault>
    requires { geometry.now.blocks ≤ (D.meter disk.old).blocks }
    ensures pack { IfOk result (λ found. (image : Image) → Tells (D.contents disk.old) image → IsPackOf geometry.now image side found) }
    ensures fault { IfErr result (λ fault. (image : Image) → IsStanding image fault) }
    ensures reads { OnlyReads (D.contents disk.old) (D.meter disk.old) (D.contents disk.new) (D.meter disk.new) }
    ensures cause { result ≡ Err MountFault.Read → HasFailed (D.meter disk.old) (D.meter disk.new) }
{
    match read_pack(alloc, disk, geometry, side) {
        Ok(found) => Ok(found),
        Err(ReadFault::Read) => Err(MountFault::Read),
        Err(ReadFault::Memory) => Err(MountFault::Memory),
    }
}
