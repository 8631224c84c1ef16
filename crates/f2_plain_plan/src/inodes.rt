//! The inodes of a tree.
ghost use Rattle.std.specs.Prelude.{◌≡◌, ◌≤◌, ◌-◌, ◌++◌, All, OnOk, false, length};
ghost use Rattle.f2_format.specs.Bytes.{zeros};
ghost use Rattle.f2_format.specs.Footer.{footer_version};
ghost use Rattle.f2_format.specs.Inode.{SIZE_LIMIT};
ghost use Rattle.f2_format.specs.Offsets.{inode_pages};
ghost use Rattle.f2_laid.specs.Laid.{IsInodeOf, pages_of_place};
ghost use Rattle.f2_plain_plan.specs.Directories.{rows_at};
ghost use Rattle.f2_plain_plan.specs.Inodes.{AddsInodes, HasInode};

use f2_disk::Block;
use f2_footer::Footer;
use f2_laid::{Place, Places, Planned};
use f2_model::{Kind, Name, Row};
use f2_node_block::{Inode, write_inode};
use std::alloc::AllocError;

const BLOCK_BYTES: u64 = 4096;

const NAME_BYTES: usize = 255;

/// A name, with zeros behind it.
fn padded(name: &Name) -> [u8; NAME_BYTES]
    requires { length name.now ≤ 255 }
    ensures { result ≡ name.now ++ zeros (255 - length name.now) }
{
    let mut bytes = [0; NAME_BYTES];
    bytes[..name.len()].copy_from_slice(name.as_slice());
    bytes
}

/// The pages of a file that have a block.
fn pages_of(place: &Place) -> u64
    ensures count { result ≡ pages_of_place place.now }
    ensures few { result ≤ inode_pages }
{
    place.addresses.iter().filter(|at| **at != 0).count() as u64
}

/// The length of a row in bytes: that of a directory is what its blocks have.
fn size_of(row: &Row, pages: u64) -> u64
    requires { pages ≤ inode_pages }
    ensures file { row.now.kind ≡ Kind.Regular → result ≡ row.now.size }
    ensures within { row.now.size ≤ SIZE_LIMIT → result ≤ SIZE_LIMIT }
{
    match row.kind {
        Kind::Regular => row.size,
        Kind::Directory => BLOCK_BYTES * pages,
    }
}

/// The footer of the inode of a file: it has no mark and isn't in the node log.
fn footer_of(ino: u32) -> Footer
    ensures { result ≡ record { nid = ino; ino = ino; offset = 0; fsync = false; dent = false; cp_ver = 0; next = 0 } }
{
    Footer {
        nid: ino,
        ino,
        offset: 0,
        fsync: false,
        dent: false,
        cp_ver: 0,
        next: 0,
    }
}

/// The inode of a row at a place.
fn inode_of(row: &Row, place: &Place) -> Block
    requires size { row.now.size ≤ SIZE_LIMIT }
    requires name { length row.now.name ≤ 255 }
    ensures inode { IsInodeOf row.now place.now result }
    ensures unlogged { footer_version result ≡ 0 }
{
    let pages = pages_of(place);
    let inode = Inode {
        kind: row.kind,
        size: size_of(row, pages),
        pino: row.parent,
        name_len: row.name.len() as u8,
        name: padded(&row.name),
        addr: place.addresses,
        nid: [0; 5],
    };
    let mut block = [0; 4096];
    f2_footer::write(&mut block, footer_of(row.ino));
    write_inode(&mut block, &inode, 1 + pages);
    block
}

/// Plans the inode of each row at its place.
pub(crate) fn add_inodes(
    blocks: &mut Vec<Planned>,
    rows: &[&Row],
    places: &Places,
) -> Result<(), AllocError>
    requires { All (HasInode places.now) (rows_at rows.now) }
    ensures { OnOk result (AddsInodes (rows_at rows.now) places.now blocks.old.items blocks.new.items) }
{
    for row in rows {
        let place = places.get(row.ino).unwrap();
        let block = inode_of(row, place);
        blocks.push(Planned {
            at: place.at,
            block,
        })?;
    }
    Ok(())
}
