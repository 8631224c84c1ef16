//! The head of a pack.

ghost use Rattle.std.specs.Prelude.{◌≡◌, ◌≤◌, ◌↔◌, IsTrue};
ghost use Rattle.f2_format.specs.Geometry.{ImageGeometry, is_in_node};
ghost use Rattle.f2_format.specs.Pack.{IsPack, head_block, head_of};
ghost use Rattle.f2_pack.specs.Packs.{fields_of, value_of};

use f2_bytes::{Block, get32, get64, put32, put64, seal};
use f2_layout::Geometry;
use f2_nat_block::Bitmap;

const VERSION_AT: usize = 0;

const NAT_AT: usize = 8;

const LOG_START_AT: usize = 12;

const FLAGS_AT: usize = 16;

const BITMAP_AT: usize = 64;

const BITMAP_END: usize = 192;

const SEAL_AT: usize = 4092;

/// The fields of a head, which its tail repeats.
#[derive(Clone, Copy, Debug, PartialEq, Eq)]
pub struct Head {
    /// The version of the checkpoint: at least 1 in a valid pack.
    pub version: u64,
    /// The address of the first block of the node log.
    pub log_start: u32,
    /// The flags; so far 0 is written.
    pub flags: u32,
    /// Which copy of each block of the node address table counts.
    pub bitmap: Bitmap,
}

/// Makes the block the head of a pack, and as well its tail, in an image with `nat` blocks in each copy of its node
/// address table. Every byte that is no field's is 0.
pub fn write_head(b: &mut Block, h: &Head, nat: u32)
    ensures written { b.new ≡ head_block (fields_of h.now nat) }
    ensures reads_back { head_of b.new ≡ fields_of h.now nat }
    // Written as head and as tail it makes a pack valid, where its fields are those of one.
    ensures valid { (geom : ImageGeometry) → 1 ≤ h.now.version → nat ≡ geom.nat
        → IsTrue (is_in_node geom h.now.log_start) → IsPack geom b.new b.new }
{
    *b = [0; 4096];
    put64(b, VERSION_AT, h.version);
    put32(b, NAT_AT, nat);
    put32(b, LOG_START_AT, h.log_start);
    put32(b, FLAGS_AT, h.flags);
    b[BITMAP_AT..BITMAP_END].copy_from_slice(&h.bitmap.bytes());
    let check_sum = seal(b);
    put32(b, SEAL_AT, check_sum);
}

/// The fields of a head.
pub(crate) fn read_head(b: &Block) -> Head
    ensures { result ≡ value_of (head_of b.now) }
{
    let mut bitmap = [0; 128];
    bitmap.copy_from_slice(&b[BITMAP_AT..BITMAP_END]);
    Head {
        version: get64(b, VERSION_AT),
        log_start: get32(b, LOG_START_AT),
        flags: get32(b, FLAGS_AT),
        bitmap: Bitmap::from_bytes(bitmap),
    }
}

/// Whether the block is a right head: its seal, its version, and the numbers that have to fit the geometry.
pub(crate) fn is_head(b: &Block, g: &Geometry) -> bool
    ensures { IsTrue result ↔ IsPack g.now b.now b.now }
{
    get32(b, SEAL_AT) == seal(b)
        && get64(b, VERSION_AT) >= 1
        && get32(b, NAT_AT) == g.nat()
        && g.in_node(get32(b, LOG_START_AT))
}
