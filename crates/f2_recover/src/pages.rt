//! The pages of files, by their addresses.
ghost use Rattle.std.specs.Prelude.{◌≡◌, ◌≢◌, ℕ, ◌+◌, ◌<◌, Err, IfErr, OnOk};
ghost use Rattle.std.specs.Ordering.{nat_cmp};
ghost use Rattle.std.specs.FinSet as set;
ghost use Rattle.f2_format.specs.Offsets.{page_limit};
ghost use Rattle.f2_image.specs.Images.{Image};
ghost use Rattle.f2_image.specs.Packs.{Checkpoint};
ghost use Rattle.f2_image.specs.Faults.{HasTable};
ghost use Rattle.f2_recover.specs.Faults.{IsRightFault};
ghost use Rattle.f2_recover.specs.Reading.{IsPageOf};
ghost use Rattle.f2_recover.specs.Seeing.{IsSeen};

use crate::faults::{BadImage, MountFault};
use crate::nodes::{FileNodes, PageAt};
use crate::zones::{Unfit, Zones};

/// Takes the address that stands for a page, and keeps it as a page of its file; there is none where it is 0.
pub(crate) fn add_page(
    zones: &mut Zones,
    file: &mut FileNodes,
    page: u32,
    at: u32,
) -> Result<(), MountFault>
    requires { page < page_limit }
    ensures seen { OnOk result ((image : Image) (ckpt : Checkpoint) (inos : set.FinSet nat_cmp) (ino offset : ℕ) → ckpt.geom ≡ zones.old.geom → IsPageOf image ckpt ino page at
        → IsSeen image ckpt inos ino offset page zones.old file.old → IsSeen image ckpt inos ino offset (page + 1) zones.new file.new) }
    ensures geom { OnOk result (zones.new.geom ≡ zones.old.geom) }
    ensures fault { IfErr result (λ fault. (image : Image) (ckpt : Checkpoint) (inos : set.FinSet nat_cmp) (ino offset : ℕ) → ckpt.geom ≡ zones.old.geom → HasTable ckpt → IsPageOf image ckpt ino page at
        → IsSeen image ckpt inos ino offset page zones.old file.old → IsRightFault image ckpt fault) }
    ensures no_read { result ≢ Err MountFault.Read }
{
    if at == 0 {
        return Ok(());
    }
    match zones.take_page(at) {
        Ok(()) => {
            file.pages.set(page, at)?;
            file.list.push(PageAt { page, at })?;
            Ok(())
        }
        Err(Unfit::Outside) => Err(MountFault::Bad(BadImage::OutOfZone { at })),
        Err(Unfit::Used) => Err(MountFault::Bad(BadImage::Shared { at })),
    }
}
