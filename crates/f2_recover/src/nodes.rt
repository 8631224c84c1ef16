//! The nodes of files.
ghost use Rattle.std.specs.Prelude.{◌≡◌, ◌≢◌, ◌⊎◌, ℕ, ◌+◌, ◌≤◌, ◌<◌, true, false, Err, Some, IfOk, IfErr, OnOk, Option};
ghost use Rattle.std.specs.Ordering.{nat_cmp};
ghost use Rattle.std.specs.FinSet as set;
ghost use Rattle.f2_disk.specs.Contents.{Contents};
ghost use Rattle.f2_disk.specs.Meter.{HasFailed};
ghost use Rattle.f2_format.specs.Footer.{footer_nid, footer_ino, footer_offset};
ghost use Rattle.f2_format.specs.Geometry.{ImageGeometry, is_in_node, nid_limit};
ghost use Rattle.f2_model.specs.Tree.{ROOT as root};
ghost use Rattle.f2_image.specs.Images.{Image};
ghost use Rattle.f2_image.specs.Packs.{Checkpoint};
ghost use Rattle.f2_image.specs.Nodes.{node_address, node as node_of};
ghost use Rattle.f2_image.specs.Reached.{IsNode};
ghost use Rattle.f2_image.specs.Faults.{IsMisplaced};
ghost use Rattle.f2_recover.specs.Told.{OnlyReads};
ghost use Rattle.f2_recover.specs.Faults.{IsRightFault};
ghost use Rattle.f2_recover.specs.Reading.{IsRead};
ghost use Rattle.f2_recover.specs.Taking.{AreTaken};
ghost use Rattle.f2_recover.specs.Seeing.{IsSeen};

use crate::blocks::read_block;
use crate::faults::{BadImage, MountFault};
use crate::zones::{Unfit, Zones};
use f2_blocks::Nids;
use f2_disk::{Block, Disk};
use f2_index::Index;

/// The ino of the root.
pub(crate) const ROOT: u32 = 3;

/// The least nid that a node other than the root's inode has.
const LEAST_NID: u32 = 4;

/// A node of a file, by what names it.
#[derive(Clone, Copy, Debug)]
pub(crate) struct NodeName {
    /// Its file.
    pub ino: u32,
    /// Its place among the nodes of the file.
    pub offset: u32,
    /// Its nid.
    pub nid: u32,
}

/// A page of a file, and its address.
#[derive(Clone, Copy, Debug)]
pub struct PageAt {
    pub page: u32,
    pub at: u32,
}

/// What is kept of the nodes and the pages of a file.
#[derive(Drop)]
pub struct FileNodes {
    /// The nids of its nodes by their offsets.
    pub nids: Nids,
    /// The addresses of its nodes by their offsets.
    pub addresses: Nids,
    /// The addresses of its pages.
    pub pages: Index,
    /// The same, one after another.
    pub list: Vec<PageAt>,
}

/// The address that a table has for a nid; 0 where it has none.
pub(crate) fn address_of(table: &[u32], nid: u32) -> u32
    ensures { (held : Option Contents) (geom : ImageGeometry) (image : Image) (ckpt : Checkpoint) → IsRead held geom table.now image ckpt → node_address image ckpt nid ≡ result }
{
    if nid == 0 || nid as usize >= table.len() {
        return 0;
    }
    table[nid as usize]
}

/// Takes the address of a node, and gives it.
fn take_node(table: &[u32], zones: &mut Zones, node: NodeName) -> Result<u32, MountFault>
    ensures address { IfOk result (λ at. (held : Option Contents) (image : Image) (ckpt : Checkpoint) → IsRead held zones.old.geom table.now image ckpt → node_address image ckpt node.nid ≡ at) }
    ensures least { IfOk result (λ _. (4 ≤ node.nid) ⊎ ((node.ino ≡ root) × (node.offset ≡ 0))) }
    ensures inside { IfOk result (λ at. is_in_node zones.old.geom at ≡ true) }
    ensures within { OnOk result (node.nid < nid_limit zones.old.geom) }
    ensures free { IfOk result (λ at. set.contains zones.old.nodes at ≡ false) }
    ensures taken { IfOk result (λ at. zones.new ≡ record zones.old { nodes = set.insert zones.old.nodes at; nids = set.insert zones.old.nids node.nid }) }
    ensures fault { IfErr result (λ fault. (held : Option Contents) (image : Image) (ckpt : Checkpoint) (inos : set.FinSet nat_cmp) (page : ℕ) → IsRead held zones.old.geom table.now image ckpt
        → IsNode image ckpt node.ino node.offset node.nid → AreTaken image ckpt inos node.ino node.offset page zones.old → IsRightFault image ckpt fault) }
    ensures no_read { result ≢ Err MountFault.Read }
{
    if node.nid < LEAST_NID && (node.ino != ROOT || node.offset != 0) {
        return Err(MountFault::Bad(BadImage::BadNat { nid: node.nid }));
    }
    let at = address_of(table, node.nid);
    match zones.take_node(at, node.nid) {
        Ok(()) => Ok(at),
        Err(Unfit::Outside) => Err(MountFault::Bad(BadImage::BadNat { nid: node.nid })),
        Err(Unfit::Used) => Err(MountFault::Bad(BadImage::Shared { at })),
    }
}

/// Whether the footer of a block is that of the node.
fn check_footer(block: &Block, node: NodeName) -> Result<(), MountFault>
    ensures nid { OnOk result (footer_nid block.now ≡ node.nid) }
    ensures ino { OnOk result (footer_ino block.now ≡ node.ino) }
    ensures offset { OnOk result (footer_offset block.now ≡ node.offset) }
    ensures misplaced { IfErr result (λ _. IsMisplaced block.now node.ino node.offset node.nid) }
    ensures fault { IfErr result (λ fault. fault ≡ MountFault.Bad (BadImage.BadNat node.nid)) }
{
    let footer = f2_footer::read(block);
    if footer.nid != node.nid || footer.ino != node.ino || footer.offset != node.offset {
        return Err(MountFault::Bad(BadImage::BadNat { nid: node.nid }));
    }
    Ok(())
}

/// Takes the address of a node of the base, reads its block, and keeps it as a node of its file.
pub(crate) fn read_node<D: Disk>(
    disk: &mut D,
    table: &[u32],
    zones: &mut Zones,
    file: &mut FileNodes,
    node: NodeName,
    block: &mut Block,
) -> Result<(), MountFault>
    requires device { zones.old.geom.blocks ≤ (D.meter disk.old).blocks }
    ensures there { OnOk result ((image : Image) (ckpt : Checkpoint) → IsRead (D.contents disk.old) zones.old.geom table.now image ckpt → node_of image ckpt node.nid ≡ Some block.new) }
    ensures seen { OnOk result ((image : Image) (ckpt : Checkpoint) (inos : set.FinSet nat_cmp) (page : ℕ) → IsRead (D.contents disk.old) zones.old.geom table.now image ckpt
        → IsNode image ckpt node.ino node.offset node.nid → IsSeen image ckpt inos node.ino node.offset page zones.old file.old → IsSeen image ckpt inos node.ino (node.offset + 1) page zones.new file.new) }
    ensures within { OnOk result (node.nid < nid_limit zones.old.geom) }
    ensures geom { OnOk result (zones.new.geom ≡ zones.old.geom) }
    ensures fault { IfErr result (λ fault. (image : Image) (ckpt : Checkpoint) (inos : set.FinSet nat_cmp) (page : ℕ) → IsRead (D.contents disk.old) zones.old.geom table.now image ckpt
        → IsNode image ckpt node.ino node.offset node.nid → IsSeen image ckpt inos node.ino node.offset page zones.old file.old → IsRightFault image ckpt fault) }
    ensures reads { OnlyReads (D.contents disk.old) (D.meter disk.old) (D.contents disk.new) (D.meter disk.new) }
    ensures cause { result ≡ Err MountFault.Read → HasFailed (D.meter disk.old) (D.meter disk.new) }
{
    let at = take_node(table, zones, node)?;
    read_block(disk, at, block)?;
    check_footer(block, node)?;
    file.nids.put(node.offset, node.nid)?;
    file.addresses.put(node.offset, at)?;
    Ok(())
}
