//! The inode.

ghost use Rattle.std.specs.Prelude.{◌≡◌, ◌≤◌, ◌++◌, drop, Ok};
ghost use Rattle.f2_format.specs.Footer.{FOOTER_START};
ghost use Rattle.f2_format.specs.Inode.{inode_of, inode_bytes, SIZE_LIMIT};
ghost use Rattle.f2_node_block.specs.Inodes.{IsPadded, checked_inode, fields_of, known_kind, links_of as links, mode_of as mode, padded_name};

use crate::parts::{get_words, put_bytes, put_words};
use f2_bytes::{Block, get16, get32, get64, put16, put32, put64};
use f2_model::Kind;
use thiserror::Error;

const FOOTER_AT: usize = 4072;

const MODE_AT: usize = 0;

const LINKS_AT: usize = 12;

const SIZE_AT: usize = 16;

const BLOCKS_AT: usize = 24;

const PARENT_AT: usize = 84;

const NAME_LENGTH_AT: usize = 88;

const NAME_AT: usize = 92;

const NAME_BYTES: usize = 255;

const ADDRESSES_AT: usize = 360;

const ADDRESSES: usize = 923;

const NIDS_AT: usize = 4052;

const NIDS: usize = 5;

/// The bytes of 1,057,053,439 pages, the most that a file has.
const MOST_BYTES: u64 = 1_057_053_439 * 4096;

const REGULAR_MODE: u16 = 0x81A4;

const DIRECTORY_MODE: u16 = 0x41ED;

/// The upper four bits of the mode of a regular file (S_IFREG).
const REGULAR_KIND: u16 = 8;

/// The upper four bits of the mode of a directory (S_IFDIR).
const DIRECTORY_KIND: u16 = 4;

/// What an inode says of its file (`struct f2fs_inode` of f2fs_fs.h).
#[derive(Debug, PartialEq, Eq, Drop)]
pub struct Inode {
    /// The kind of file that the mode tells.
    pub kind: Kind,
    /// The length of the file in bytes, at most 1,057,053,439 pages of 4,096.
    pub size: u64,
    /// The ino of the directory that the file was made in.
    pub pino: u32,
    /// The bytes of the file's name there.
    pub name_len: u8,
    /// The name, and zeros behind it.
    pub name: [u8; 255],
    /// The addresses of the pages 0 to 922; 0 where a page has no block.
    pub addr: [u32; 923],
    /// The nids of two direct nodes, two indirect nodes and the double indirect node; 0 where there is none.
    pub nid: [u32; 5],
}

/// What is wrong with a block that should be an inode.
#[derive(Clone, Copy, Debug, PartialEq, Eq, Error)]
pub enum InodeFault {
    /// The length of the name is above 255.
    #[error("an inode whose name is too long")]
    NameLength,
    /// The mode is neither a regular file's nor a directory's.
    #[error("an inode of neither a regular file nor a directory")]
    Kind,
    /// The size is above that of 1,057,053,439 pages.
    #[error("an inode whose size is above the limit")]
    SizeTooBig,
}

/// The inode in the block, or the first thing that is wrong with it: its kind, its name's length, its size.
///
/// The name is all 255 bytes as they stand. Links and blocks are not looked at, nor is the footer.
pub fn read_inode(b: &Block) -> Result<Inode, InodeFault>
    ensures { result ≡ checked_inode (inode_of b.now) }
{
    let Some(kind) = kind_with(get16(b, MODE_AT)) else {
        return Err(InodeFault::Kind);
    };
    let name_length = get32(b, NAME_LENGTH_AT);
    if name_length > u8::MAX as u32 {
        return Err(InodeFault::NameLength);
    }
    let size = get64(b, SIZE_AT);
    if size > MOST_BYTES {
        return Err(InodeFault::SizeTooBig);
    }
    let mut inode = Inode {
        kind,
        size,
        pino: get32(b, PARENT_AT),
        name_len: name_length as u8,
        name: [0; NAME_BYTES],
        addr: [0; ADDRESSES],
        nid: [0; NIDS],
    };
    inode
        .name
        .copy_from_slice(&b[NAME_AT..NAME_AT + NAME_BYTES]);
    get_words(b, ADDRESSES_AT, &mut inode.addr);
    get_words(b, NIDS_AT, &mut inode.nid);
    Ok(inode)
}

/// Makes the block that inode of a file with so many blocks, its nodes and its pages together.
///
/// Every byte before the footer that is no field's is 0, those of the name behind its length too. The footer
/// stays.
pub fn write_inode(b: &mut Block, i: &Inode, blocks: u64)
    ensures written { b.new ≡ inode_bytes (fields_of i.now blocks) ++ drop FOOTER_START b.old }

    // An inode of a size within the limit is read as it was, but for what stood behind its name.
    ensures reads_back { i.now.size ≤ SIZE_LIMIT → IsPadded i.now → checked_inode (inode_of b.new) ≡ Ok i.now }
{
    put_bytes(b, 0, &[0; FOOTER_AT]);
    put16(b, MODE_AT, mode_of(i.kind));
    put32(b, LINKS_AT, links_of(i.kind));
    put64(b, SIZE_AT, i.size);
    put64(b, BLOCKS_AT, blocks);
    put32(b, PARENT_AT, i.pino);
    put32(b, NAME_LENGTH_AT, i.name_len as u32);
    put_bytes(b, NAME_AT, &padded(i));
    put_words(b, ADDRESSES_AT, &i.addr);
    put_words(b, NIDS_AT, &i.nid);
}

/// The kind of a file with this mode, or `None` where it is neither a regular file nor a directory.
fn kind_with(mode: u16) -> Option<Kind>
    ensures { result ≡ known_kind mode }
{
    match mode >> 12 {
        REGULAR_KIND => Some(Kind::Regular),
        DIRECTORY_KIND => Some(Kind::Directory),
        _ => None,
    }
}

/// The mode that a file of this kind is given.
fn mode_of(kind: Kind) -> u16
    ensures { result ≡ mode kind }
{
    match kind {
        Kind::Regular => REGULAR_MODE,
        Kind::Directory => DIRECTORY_MODE,
    }
}

/// The links that a file of this kind is given: a directory has two whatever it holds.
fn links_of(kind: Kind) -> u32
    ensures { result ≡ links kind }
{
    match kind {
        Kind::Regular => 1,
        Kind::Directory => 2,
    }
}

/// The name of an inode, with zeros behind its length.
fn padded(i: &Inode) -> [u8; NAME_BYTES]
    ensures { result ≡ padded_name i.now }
{
    let len = i.name_len as usize;
    let mut name = [0; NAME_BYTES];
    name[..len].copy_from_slice(&i.name[..len]);
    name
}
