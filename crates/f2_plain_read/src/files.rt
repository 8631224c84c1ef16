//! The inodes of files and their pages.
ghost use Rattle.std.specs.Prelude.{◌≡◌, ◌≤◌, ◌↔◌, length, slice_index, EachIndex, Err, IfOk, IfSome, IfNone, IsTrue};
ghost use Rattle.f2_disk.specs.Using.{IsCaused, OnlyReads};
ghost use Rattle.f2_image.specs.Images.{Image, block_at};
ghost use Rattle.f2_model.specs.declared.rows.Row.{Row};
ghost use Rattle.f2_laid.specs.Laid.{IsInodeOf};
ghost use Rattle.f2_laid.specs.declared.places.Place.{Place as LaidPlace};
ghost use Rattle.f2_plain_read.specs.Told.{Tells};
ghost use Rattle.f2_plain_read.specs.Files.{IsFirstNode, IsFileIn, ArePagesAt, ReachesPast};

use crate::blocks::read_block;
use crate::faults::ReadFault;
use f2_disk::{Block, Disk};
use f2_laid::Place;
use f2_model::{Kind, Pages};
use f2_node_block::read_inode;
use std::alloc::Global;

/// What an inode tells of its file.
#[derive(Debug, Drop)]
pub(crate) struct File {
    pub kind: Kind,
    /// Its length in bytes; 0 for a directory.
    pub size: u64,
    pub place: Place,
}

/// The file whose inode stands at an address. `Bad` is for a block that is no inode of that number.
pub(crate) fn read_file<D: Disk>(
    alloc: Global,
    disk: &mut D,
    ino: u32,
    at: u32,
) -> Result<File, ReadFault>
    ensures file { IfOk result (λ file. (image : Image) → Tells (D.contents disk.old) image → (row : Row) (place : LaidPlace)
        → row.ino ≡ ino → place.at ≡ at → IsInodeOf row place (block_at image at) → IsFileIn (block_at image at) row place file) }
    ensures bad { result ≡ Err ReadFault.Bad → (image : Image) → Tells (D.contents disk.old) image → (row : Row) (place : LaidPlace)
        → row.ino ≡ ino → IsInodeOf row place (block_at image at) → length image ≤ at }
    ensures reads { OnlyReads D.contents D.meter disk.old disk.new }
    ensures cause { IsCaused ReadFault.Read result D.meter disk.old disk.new }
{
    let mut block = Box::new(alloc, [0; 4096])?;
    read_block(disk, at, &mut block)?;
    file_in(&block, ino, at).ok_or(ReadFault::Bad)
}

/// The file whose inode a block is, or `None` where it is no inode of that number, or one with nodes below it.
fn file_in(block: &Block, ino: u32, at: u32) -> Option<File>
    ensures file { IfSome result (λ file. (row : Row) (place : LaidPlace) → row.ino ≡ ino → place.at ≡ at → IsInodeOf row place block.now → IsFileIn block.now row place file) }
    ensures none { IfNone result ((row : Row) (place : LaidPlace) → row.ino ≡ ino → ¬ (IsInodeOf row place block.now)) }
{
    let inode = read_inode(block).ok()?;
    if !is_own(block, ino) || !are_zeros(&inode.nid) {
        return None;
    }
    let size = match inode.kind {
        Kind::Regular => inode.size,
        Kind::Directory => 0,
    };
    let place = Place {
        at,
        addresses: inode.addr,
    };
    Some(File {
        kind: inode.kind,
        size,
        place,
    })
}

/// Whether a block is the first node of the file of that number.
fn is_own(block: &Block, ino: u32) -> bool
    ensures { IsTrue result ↔ IsFirstNode block.now ino }
{
    let footer = f2_footer::read(block);
    footer.nid == ino && footer.ino == ino && footer.offset == 0
}

/// Whether there are no nids.
fn are_zeros(nids: &[u32; 5]) -> bool
    ensures { IsTrue result ↔ EachIndex nids.now (λ k. slice_index nids.now k ≡ 0) }
{
    nids.iter().all(|nid| *nid == 0)
}

/// The pages at the addresses of a place.
pub(crate) fn read_pages<D: Disk>(
    alloc: Global,
    disk: &mut D,
    place: &Place,
) -> Result<Pages, ReadFault>
    ensures pages { IfOk result (λ pages. (image : Image) → Tells (D.contents disk.old) image → ArePagesAt image place.now pages) }
    ensures bad { result ≡ Err ReadFault.Bad → (image : Image) → Tells (D.contents disk.old) image → ReachesPast image place.now }
    ensures reads { OnlyReads D.contents D.meter disk.old disk.new }
    ensures cause { IsCaused ReadFault.Read result D.meter disk.old disk.new }
{
    let mut pages = Pages::new(alloc);
    let mut block = Box::new(alloc, [0; 4096])?;
    for (page, at) in place.addresses.iter().enumerate() {
        if *at != 0 {
            read_block(disk, *at, &mut block)?;
            pages.put(page as u32, &block)?;
        }
    }
    Ok(pages)
}
