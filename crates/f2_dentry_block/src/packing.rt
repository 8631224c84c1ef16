//! From the names of a directory to its blocks.

ghost use Rattle.std.specs.Prelude.{◌≡◌, ◌-◌, ◌^◌, All, IfOk, length, map, min};
ghost use Rattle.f2_format.specs.Packing.{blocks_of_names};
ghost use Rattle.f2_dentry_block.specs.Dents.{dentry_of};
ghost use Rattle.f2_dentry_block.specs.Packed.{HasNameLength, names_of, packed_blocks};

use crate::dents::Dent;
use crate::entries::put_dent;
use crate::slots::{SLOTS_A_BLOCK, slots_of_len};
use f2_bytes::Block;
use std::alloc::{AllocError, Global};

/// The blocks of a directory with these names (`struct f2fs_dentry_block` of f2fs_fs.h): each name right after the
/// one before, or at the start of the next block where it doesn't fit. Every byte that is no field's is 0.
///
/// A name has 1 to 255 bytes and takes a slot for each eight of them begun, and a block has 214 slots. The names of
/// a directory are given in the order of their bytes, each once; other lists are packed as they stand. Only want of
/// memory fails.
pub fn pack(alloc: Global, names: &[Dent]) -> Result<Vec<Block>, AllocError>
    requires { All (λ dent. HasNameLength dent.name) names.now }
    ensures blocks { IfOk result (λ blocks. blocks.items ≡ packed_blocks (map dentry_of names.now)) }
    ensures count { IfOk result (λ blocks. length blocks.items ≡ blocks_of_names (names_of (map dentry_of names.now))) }
{
    let mut blocks: Vec<Block> = Vec::new(alloc);
    let mut taken = SLOTS_A_BLOCK;
    for dent in names {
        let slots = slots_of_len(dent.name.len());
        if taken + slots > SLOTS_A_BLOCK {
            let mut block = [0; 4096];
            put_dent(&mut block, 0, dent);
            blocks.push(block)?;
            taken = slots;
        } else {
            let last = blocks.len() - 1;
            put_dent(&mut blocks[last], taken, dent);
            taken += slots;
        }
    }
    Ok(blocks)
}

/// The number of blocks that [`pack`] gives for these names, or `u32::MAX` where that is more. It takes no memory.
pub fn slots_of(names: &[Dent]) -> u32
    requires { All (λ dent. HasNameLength dent.name) names.now }
    ensures { result ≡ min (blocks_of_names (names_of (map dentry_of names.now))) (2 ^ 32 - 1) }
{
    let mut blocks = 0u32;
    let mut taken = SLOTS_A_BLOCK;
    for dent in names {
        let slots = slots_of_len(dent.name.len());
        if taken + slots > SLOTS_A_BLOCK {
            blocks = blocks.saturating_add(1);
            taken = slots;
        } else {
            taken += slots;
        }
    }
    blocks
}
