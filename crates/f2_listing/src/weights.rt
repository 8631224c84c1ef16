//! The weight of a file's bytes, read page by page.
ghost use Rattle.std.specs.Prelude.{◌≡◌, Err, IfOk};
ghost use Rattle.f2_disk.specs.Meter.{HasFailed};
ghost use Rattle.f2_found.specs.Pages.{AreAt, AreInOrder};
ghost use Rattle.f2_found.specs.Places.{AreBelow};
ghost use Rattle.f2_image.specs.Images.{Image};
ghost use Rattle.f2_model.specs.Content.{PageMap};
ghost use Rattle.f2_recover.specs.Told.{Tells, OnlyReads};
ghost use Rattle.f2_script.specs.Trees.{weight_of};

use crate::faults::ListFault;
use f2_disk::{Block, Disk};
use f2_recover::PageAt;
use f2_script::weight_from;

/// The bytes of a page.
const PAGE: u64 = 4096;

/// The weight of a file whose pages stand at these addresses: the sum, over the bytes of all its pages, of the byte times its
/// offset plus 1, modulo 2^64.
pub(crate) fn weight<D: Disk>(disk: &mut D, pages: &[PageAt]) -> Result<u64, ListFault>
    requires below { AreBelow (D.meter disk.old).blocks pages.now }
    requires order { AreInOrder pages.now }
    ensures weight { IfOk result (λ weight. (image : Image) (map : PageMap) → Tells (D.contents disk.old) image → AreAt image map pages.now → weight ≡ weight_of map) }
    ensures reads { OnlyReads (D.contents disk.old) (D.meter disk.old) (D.contents disk.new) (D.meter disk.new) }
    ensures cause { result ≡ Err ListFault.Read → HasFailed (D.meter disk.old) (D.meter disk.new) }
{
    let mut block: Block = [0; 4096];
    let mut sum = 0u64;
    for listed in pages {
        disk.read(listed.at, &mut block)?;
        sum = sum.wrapping_add(weight_from(u64::from(listed.page) * PAGE, &block));
    }
    Ok(sum)
}
