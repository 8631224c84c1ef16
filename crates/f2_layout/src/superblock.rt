//! The superblock.

ghost use Rattle.std.specs.Prelude.{◌≡◌, ◌≤◌, ◌↔◌, ℕ, IsOk, IfOk};
ghost use Rattle.f2_format.specs.Superblock.{IsSuper, super_geom, super_block};

use crate::geometry::Geometry;
use f2_bytes::{Block, get32, get64, put32, put64};
use thiserror::Error;

const MAGIC: u32 = 0xF2F5_2010;

const TAG: u64 = 0x3146_4F52_504E_3246;

const MAGIC_AT: usize = 1024;

const TAG_AT: usize = 1028;

const BLOCKS_AT: usize = 1036;

const NAT_AT: usize = 1040;

/// The block is no superblock of an image that the device holds.
#[derive(Clone, Copy, Debug, PartialEq, Eq, Error)]
#[error("no superblock")]
pub struct BadSuper;

/// The geometry that a superblock tells, where magic number and tag are right, the sizes break no limit, and
/// the device has that many blocks.
pub fn read_super(b: &Block, device: u32) -> Result<Geometry, BadSuper>
    ensures ok { IfOk result (λ g. g ≡ super_geom b.now) }
    ensures right { IsOk result ↔ IsSuper b.now device }
{
    if get32(b, MAGIC_AT) != MAGIC || get64(b, TAG_AT) != TAG {
        return Err(BadSuper);
    }
    match Geometry::new(get32(b, BLOCKS_AT), get32(b, NAT_AT)) {
        Ok(geometry) if geometry.blocks() <= device => Ok(geometry),
        _ => Err(BadSuper),
    }
}

/// Makes the block the superblock of an image. Every byte that is no field's is 0.
pub fn write_super(b: &mut Block, g: &Geometry)
    ensures written { b.new ≡ super_block g.now }
    ensures reads_back { super_geom b.new ≡ g.now }
    ensures right { (device : ℕ) → g.now.blocks ≤ device → IsSuper b.new device }
{
    *b = [0; 4096];
    put32(b, MAGIC_AT, MAGIC);
    put64(b, TAG_AT, TAG);
    put32(b, BLOCKS_AT, g.blocks());
    put32(b, NAT_AT, g.nat());
}
