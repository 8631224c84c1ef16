//! Where blocks stand in a file.

ghost use Rattle.std.specs.Prelude.{◌≡◌, ◌*◌, ◌/◌, ◌-◌, ◌^◌, min};

/// The bytes of a block.
const BLOCK_BYTES: u64 = 4096;

/// How many whole blocks a file of this many bytes has, or the most that an address can count.
pub(crate) fn whole_blocks(bytes: u64) -> u32
    ensures { result ≡ min (bytes / 4096) (2 ^ 32 - 1) }
{
    (bytes / BLOCK_BYTES).min(u64::from(u32::MAX)) as u32
}

/// How many bytes this many blocks are, and so where the block after them begins.
pub(crate) fn bytes_of(blocks: u32) -> u64
    ensures { result ≡ 4096 * blocks }
{
    BLOCK_BYTES * u64::from(blocks)
}
