//! What is looked at once all files of the base were read.
ghost use Rattle.std.specs.Prelude.{◌≡◌, ◌≢◌, ◌≤◌, ◌<◌, ◌^◌, ℕ, Option, true, length, slice_index, Err, IfErr, OnOk};
ghost use Rattle.std.specs.FinSet as set;
ghost use Rattle.f2_disk.specs.Contents.{Contents};
ghost use Rattle.f2_image.specs.Images.{Image};
ghost use Rattle.f2_image.specs.Packs.{Checkpoint};
ghost use Rattle.f2_image.specs.Faults.{HasTable};
ghost use Rattle.f2_format.specs.Geometry.{node_third, data_third};
ghost use Rattle.std.specs.Ordering.{nat_cmp};
ghost use Rattle.f2_recover.specs.Faults.{IsRightFault};
ghost use Rattle.f2_recover.specs.Reading.{IsRead};
ghost use Rattle.f2_recover.specs.Taking.{AreAllNodes, AreTaken};

use crate::faults::{BadImage, MountFault};
use crate::zones::Zones;
use f2_layout::Geometry;

/// Whether each nid that has an address is that of a node that was read.
pub(crate) fn check_reached(table: &[u32], zones: &Zones) -> Result<(), MountFault>
    requires { length table.now < 2 ^ 31 }
    ensures right { OnOk result ((nid : ℕ) → nid < length table.now → slice_index table.now nid ≢ 0 → set.contains zones.now.nids nid ≡ true) }
    ensures fault { IfErr result (λ fault. (held : Option Contents) (image : Image) (ckpt : Checkpoint) → IsRead held zones.now.geom table.now image ckpt → AreAllNodes image ckpt zones.now → IsRightFault image ckpt fault) }
    ensures no_read { result ≢ Err MountFault.Read }
{
    for (nid, at) in table.iter().enumerate() {
        if *at != 0 && !zones.has_nid(nid as u32) {
            return Err(MountFault::Bad(BadImage::BadNat { nid: nid as u32 }));
        }
    }
    Ok(())
}

/// Whether nodes and pages take no more than a third of their zones.
pub(crate) fn check_counts(zones: &Zones, g: &Geometry) -> Result<(), MountFault>
    ensures nodes { OnOk result (set.len zones.now.nodes ≤ node_third g.now) }
    ensures pages { OnOk result (set.len zones.now.pages ≤ data_third g.now) }
    ensures fault { IfErr result (λ fault. (image : Image) (ckpt : Checkpoint) (inos : set.FinSet nat_cmp) (ino offset page : ℕ) → HasTable ckpt → ckpt.geom ≡ g.now
        → AreTaken image ckpt inos ino offset page zones.now → IsRightFault image ckpt fault) }
    ensures no_read { result ≢ Err MountFault.Read }
{
    let nodes = g.cn();
    if zones.node_count() > nodes {
        return Err(MountFault::Bad(BadImage::TooFull { limit: nodes }));
    }
    let pages = g.cd();
    if zones.page_count() > pages {
        return Err(MountFault::Bad(BadImage::TooFull { limit: pages }));
    }
    Ok(())
}
