//! A file of the base: its inode, and the nodes below it.
ghost use Rattle.std.specs.Prelude.{◌≡◌, ◌≢◌, ℕ, ◌≤◌, ◌<◌, List, Err, Ok, Some, IfOk, IfErr, OnOk};
ghost use Rattle.std.specs.Ordering.{nat_cmp};
ghost use Rattle.std.specs.FinMap as map;
ghost use Rattle.std.specs.FinSet as set;
ghost use Rattle.f2_disk.specs.Meter.{HasFailed};
ghost use Rattle.f2_format.specs.Geometry.{ImageGeometry, nid_limit};
ghost use Rattle.f2_format.specs.Inode.{inode_of};
ghost use Rattle.f2_format.specs.Offsets.{inode_pages, page_limit};
ghost use Rattle.f2_image.specs.Images.{Image};
ghost use Rattle.f2_image.specs.Packs.{Checkpoint};
ghost use Rattle.f2_image.specs.Bases.{IsReached};
ghost use Rattle.f2_image.specs.Faults.{HasTable, IsForeign};
ghost use Rattle.f2_node_block.specs.Inodes.{checked_inode};
ghost use Rattle.f2_recover.specs.Told.{OnlyReads};
ghost use Rattle.f2_recover.specs.Faults.{IsRightFault};
ghost use Rattle.f2_recover.specs.Reading.{IsRead, IsFile, IsPageOf};
ghost use Rattle.f2_recover.specs.Taking.{AreTaken};
ghost use Rattle.f2_recover.specs.Seeing.{IsSeen, node_limit};
ghost use Rattle.f2_recover.specs.Files.{IsFileRead, AreLast};

use crate::below::{read_direct, read_double, read_indirect};
use crate::faults::{BadImage, MountFault};
use crate::nodes::{FileNodes, NodeName, address_of, read_node};
use crate::pages::add_page;
use crate::zones::Zones;
use f2_blocks::Nids;
use f2_disk::{Block, Disk};
use f2_index::Index;
use f2_model::Kind;
use f2_node_block::{Inode, read_inode};
use std::alloc::Global;

/// The pages that an inode has addresses for.
const INODE_PAGES: u32 = 923;

/// What is read of a file of the base.
#[derive(Drop)]
pub struct File {
    pub kind: Kind,
    /// Its length in bytes, as its inode tells it.
    pub size: u64,
    pub nodes: FileNodes,
}

/// The inode in a block that stands at an address.
fn inode_at(block: &Block, at: u32) -> Result<Inode, MountFault>
    ensures inode { IfOk result (λ inode. checked_inode (inode_of block.now) ≡ Ok inode) }
    ensures odd { IfErr result (λ _. IsForeign block.now) }
    ensures fault { IfErr result (λ fault. fault ≡ MountFault.Bad (BadImage.BadInode at)) }
{
    match read_inode(block) {
        Ok(inode) => Ok(inode),
        Err(_) => Err(MountFault::Bad(BadImage::BadInode { at })),
    }
}

/// The pages that have their addresses in the inode.
fn add_first_pages(
    zones: &mut Zones,
    file: &mut FileNodes,
    addresses: &[u32; 923],
) -> Result<(), MountFault>
    ensures seen { OnOk result ((image : Image) (ckpt : Checkpoint) (inos : set.FinSet nat_cmp) (ino offset : ℕ) (inode : List ℕ) → ckpt.geom ≡ zones.old.geom → IsFile image ckpt ino inode
        → addresses.now ≡ (inode_of inode).addresses → IsSeen image ckpt inos ino offset 0 zones.old file.old → IsSeen image ckpt inos ino offset inode_pages zones.new file.new) }
    ensures geom { OnOk result (zones.new.geom ≡ zones.old.geom) }
    ensures fault { IfErr result (λ fault. (image : Image) (ckpt : Checkpoint) (inos : set.FinSet nat_cmp) (ino offset : ℕ) (inode : List ℕ) → ckpt.geom ≡ zones.old.geom → HasTable ckpt → IsFile image ckpt ino inode
        → addresses.now ≡ (inode_of inode).addresses → IsSeen image ckpt inos ino offset 0 zones.old file.old → IsRightFault image ckpt fault) }
    ensures no_read { result ≢ Err MountFault.Read }
{
    for page in 0..INODE_PAGES {
        add_page(zones, file, page, addresses[page as usize])?;
    }
    Ok(())
}

/// The nodes below an inode with these nids, and their pages.
fn read_below<D: Disk>(
    disk: &mut D,
    table: &[u32],
    zones: &mut Zones,
    file: &mut FileNodes,
    ino: u32,
    nids: &[u32; 5],
) -> Result<(), MountFault>
    requires device { zones.old.geom.blocks ≤ (D.meter disk.old).blocks }
    ensures seen { OnOk result ((image : Image) (ckpt : Checkpoint) (inos : set.FinSet nat_cmp) (inode : List ℕ) → IsRead (D.contents disk.old) zones.old.geom table.now image ckpt → IsFile image ckpt ino inode
        → nids.now ≡ (inode_of inode).nids → IsSeen image ckpt inos ino 1 inode_pages zones.old file.old → IsSeen image ckpt inos ino node_limit page_limit zones.new file.new) }
    ensures geom { OnOk result (zones.new.geom ≡ zones.old.geom) }
    ensures fault { IfErr result (λ fault. (image : Image) (ckpt : Checkpoint) (inos : set.FinSet nat_cmp) (inode : List ℕ) → IsRead (D.contents disk.old) zones.old.geom table.now image ckpt → IsFile image ckpt ino inode
        → nids.now ≡ (inode_of inode).nids → IsSeen image ckpt inos ino 1 inode_pages zones.old file.old → IsRightFault image ckpt fault) }
    ensures reads { OnlyReads (D.contents disk.old) (D.meter disk.old) (D.contents disk.new) (D.meter disk.new) }
    ensures cause { result ≡ Err MountFault.Read → HasFailed (D.meter disk.old) (D.meter disk.new) }
{
    let [one, two, first, second, double] = *nids;
    let node = NodeName {
        ino,
        offset: 1,
        nid: one,
    };
    read_direct(disk, table, zones, file, node, 0)?;
    let node = NodeName {
        ino,
        offset: 2,
        nid: two,
    };
    read_direct(disk, table, zones, file, node, 1)?;
    read_indirects(disk, table, zones, file, ino, [first, second, double])?;
    Ok(())
}

/// The nodes below an inode behind its two direct nodes.
fn read_indirects<D: Disk>(
    disk: &mut D,
    table: &[u32],
    zones: &mut Zones,
    file: &mut FileNodes,
    ino: u32,
    nids: [u32; 3],
) -> Result<(), MountFault>
    requires device { zones.old.geom.blocks ≤ (D.meter disk.old).blocks }
    ensures seen { OnOk result ((image : Image) (ckpt : Checkpoint) (inos : set.FinSet nat_cmp) (inode : List ℕ) → IsRead (D.contents disk.old) zones.old.geom table.now image ckpt → IsFile image ckpt ino inode
        → AreLast nids inode → IsSeen image ckpt inos ino 3 2959 zones.old file.old → IsSeen image ckpt inos ino node_limit page_limit zones.new file.new) }
    ensures geom { OnOk result (zones.new.geom ≡ zones.old.geom) }
    ensures fault { IfErr result (λ fault. (image : Image) (ckpt : Checkpoint) (inos : set.FinSet nat_cmp) (inode : List ℕ) → IsRead (D.contents disk.old) zones.old.geom table.now image ckpt → IsFile image ckpt ino inode
        → AreLast nids inode → IsSeen image ckpt inos ino 3 2959 zones.old file.old → IsRightFault image ckpt fault) }
    ensures reads { OnlyReads (D.contents disk.old) (D.meter disk.old) (D.contents disk.new) (D.meter disk.new) }
    ensures cause { result ≡ Err MountFault.Read → HasFailed (D.meter disk.old) (D.meter disk.new) }
{
    let node = NodeName {
        ino,
        offset: 3,
        nid: nids[0],
    };
    read_indirect(disk, table, zones, file, node, 2)?;
    let node = NodeName {
        ino,
        offset: 1022,
        nid: nids[1],
    };
    read_indirect(disk, table, zones, file, node, 1020)?;
    let node = NodeName {
        ino,
        offset: 2041,
        nid: nids[2],
    };
    read_double(disk, table, zones, file, node)?;
    Ok(())
}

/// The file of the base with this ino: its inode, and what is below it.
pub(crate) fn read_file<D: Disk>(
    alloc: Global,
    disk: &mut D,
    table: &[u32],
    zones: &mut Zones,
    ino: u32,
) -> Result<File, MountFault>
    requires device { zones.old.geom.blocks ≤ (D.meter disk.old).blocks }
    ensures file { IfOk result (λ file. (image : Image) (ckpt : Checkpoint) (inos : set.FinSet nat_cmp) → IsRead (D.contents disk.old) zones.old.geom table.now image ckpt → IsReached image ckpt ino
        → AreTaken image ckpt inos ino 0 0 zones.old → IsFileRead image ckpt inos ino zones.new file) }
    ensures within { OnOk result (ino < nid_limit zones.old.geom) }
    ensures geom { OnOk result (zones.new.geom ≡ zones.old.geom) }
    ensures fault { IfErr result (λ fault. (image : Image) (ckpt : Checkpoint) (inos : set.FinSet nat_cmp) → IsRead (D.contents disk.old) zones.old.geom table.now image ckpt → IsReached image ckpt ino
        → AreTaken image ckpt inos ino 0 0 zones.old → IsRightFault image ckpt fault) }
    ensures reads { OnlyReads (D.contents disk.old) (D.meter disk.old) (D.contents disk.new) (D.meter disk.new) }
    ensures cause { result ≡ Err MountFault.Read → HasFailed (D.meter disk.old) (D.meter disk.new) }
{
    let mut nodes = FileNodes {
        nids: Nids::new(alloc),
        addresses: Nids::new(alloc),
        pages: Index::new(alloc),
        list: Vec::new(alloc),
    };
    let mut block = [0; 4096];
    let node = NodeName {
        ino,
        offset: 0,
        nid: ino,
    };
    read_node(disk, table, zones, &mut nodes, node, &mut block)?;
    let inode = inode_at(&block, address_of(table, ino))?;
    add_first_pages(zones, &mut nodes, &inode.addr)?;
    read_below(disk, table, zones, &mut nodes, ino, &inode.nid)?;
    Ok(File {
        kind: inode.kind,
        size: inode.size,
        nodes,
    })
}
