//! The footer of a node block, as F2FS has it: whose node it is, where it stands in its file, its marks,
//! and its place in the node log.
//!
//! The layers above read a footer with [`read`] and write one with [`write`]: the footer of a block that was
//! written is the footer that was given, and the node's own bytes stay.
//!
//! The bytes are defined in `f2_format`, in `specs/Footer.antt`, and [`Footer`] as their value in this
//! crate's `specs/Footer.antt`.
#![tactic(auto)]

ghost use Rattle.std.specs.Prelude.{◌≡◌, ◌^◌, ◌<◌, take};
ghost use Rattle.f2_format.specs.Bytes.{with_fields};
ghost use Rattle.f2_format.specs.Footer.{FOOTER_START, flag_of as flag};
ghost use Rattle.f2_footer.specs.Footer.{footer_of, fields_of};

use byteorder::{ByteOrder, LittleEndian};

/// A block of an image.
pub type Block = [u8; 4096];

const NID: usize = 4072;

const INO: usize = 4076;

const FLAG: usize = 4080;

const VERSION: usize = 4084;

const NEXT: usize = 4092;

/// What the footer of a node says (`struct node_footer` of f2fs_fs.h).
#[derive(Clone, Copy, Debug, PartialEq, Eq)]
pub struct Footer {
    /// The node's own number.
    pub nid: u32,
    /// The number of the inode of the file that has the node.
    pub ino: u32,
    /// The place of the node among the nodes of its file, below 2^29: the inode is 0.
    pub offset: u32,
    /// The fsync mark: the node ends an fsync.
    pub fsync: bool,
    /// The dentry mark: recovery has to enter the file into its directory.
    pub dent: bool,
    /// The version of the checkpoint that the node was written after.
    pub cp_ver: u64,
    /// The address of the next block of the node log, or 0.
    pub next: u32,
}

/// The footer of the node in this block. The cold bit of the flag is not looked at.
pub fn read(b: &Block) -> Footer
    ensures { result ≡ footer_of b.now }
{
    let flag = LittleEndian::read_u32(&b[FLAG..]);
    Footer {
        nid: LittleEndian::read_u32(&b[NID..]),
        ino: LittleEndian::read_u32(&b[INO..]),
        offset: flag >> 3,
        fsync: flag & 2 != 0,
        dent: flag & 4 != 0,
        cp_ver: LittleEndian::read_u64(&b[VERSION..]),
        next: LittleEndian::read_u32(&b[NEXT..]),
    }
}

/// Writes the footer into the last 24 bytes of the block, with the cold bit 0. The node's own bytes stay.
pub fn write(b: &mut Block, f: Footer)
    requires { f.offset < 2 ^ 29 }
    ensures written { b.new ≡ with_fields b.old (fields_of f) }
    ensures reads_back { footer_of b.new ≡ f }
    ensures kept { take FOOTER_START b.new ≡ take FOOTER_START b.old }
{
    LittleEndian::write_u32(&mut b[NID..], f.nid);
    LittleEndian::write_u32(&mut b[INO..], f.ino);
    LittleEndian::write_u32(&mut b[FLAG..], flag_of(&f));
    LittleEndian::write_u64(&mut b[VERSION..], f.cp_ver);
    LittleEndian::write_u32(&mut b[NEXT..], f.next);
}

/// The flag of this footer: the offset above three bits, of which the lowest is 0.
fn flag_of(f: &Footer) -> u32
    requires { f.now.offset < 2 ^ 29 }
    ensures { result ≡ flag f.now.offset f.now.fsync f.now.dent }
{
    let fsync = if f.fsync { 2 } else { 0 };
    let dent = if f.dent { 4 } else { 0 };
    f.offset * 8 + dent + fsync
}
