//! The entries of a block of the node address table.

ghost use Rattle.std.specs.Prelude.{◌≡◌, ◌≢◌, ℕ, ◌<◌};
ghost use Rattle.f2_format.specs.Geometry.{ENTRIES_A_NAT_BLOCK};
ghost use Rattle.f2_format.specs.Nat.{nat_entry, with_nat_entry, nat_block_of, nat_place_of};
ghost use Rattle.f2_nat_block.specs.NatEntry.{entry_of, place_of};

use f2_bytes::{Block, get32, put32};

const ENTRY_BYTES: usize = 9;

const ENTRIES_A_BLOCK: u32 = 455;

/// Whose a node is and where it stands (`struct f2fs_nat_entry` of f2fs_fs.h, without its version).
#[derive(Clone, Copy, Debug, Default, PartialEq, Eq)]
pub struct NatEntry {
    /// The number of the inode of the file that has the node.
    pub ino: u32,
    /// The address of the node's block, or 0 where the nid is free.
    pub addr: u32,
}

/// The block of the table that has the entry of a nid, and the place of the entry in it.
pub fn locate(nid: u32) -> (u32, u16)
    ensures { result ≡ (nat_block_of nid, nat_place_of nid) }
{
    (nid / ENTRIES_A_BLOCK, (nid % ENTRIES_A_BLOCK) as u16)
}

/// The entry at this place of the block.
pub fn entry(b: &Block, place: u16) -> NatEntry
    requires { place < ENTRIES_A_NAT_BLOCK }
    ensures { result ≡ entry_of (nat_entry b.now place) }
{
    let at = ENTRY_BYTES * place as usize;
    NatEntry {
        ino: get32(b, at + 1),
        addr: get32(b, at + 5),
    }
}

/// Puts an entry at this place of the block, with version 0. No other entry changes.
pub fn set(b: &mut Block, place: u16, e: NatEntry)
    requires { place < ENTRIES_A_NAT_BLOCK }
    ensures written { b.new ≡ with_nat_entry b.old place (place_of e) }
    ensures reads_back { nat_entry b.new place ≡ place_of e }
    ensures others { (p : ℕ) → p < ENTRIES_A_NAT_BLOCK → p ≢ place → nat_entry b.new p ≡ nat_entry b.old p }
{
    let at = ENTRY_BYTES * place as usize;
    b[at] = 0;
    put32(b, at + 1, e.ino);
    put32(b, at + 5, e.addr);
}
