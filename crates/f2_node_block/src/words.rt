//! The words of a direct or an indirect node.

ghost use Rattle.std.specs.Prelude.{◌≡◌, ◌≢◌, ℕ, ◌<◌, drop};
ghost use Rattle.f2_format.specs.Footer.{FOOTER_START};
ghost use Rattle.f2_format.specs.Inode.{node_word, with_node_word};
ghost use Rattle.f2_format.specs.Offsets.{node_slots};

use f2_bytes::{Block, get32, put32};

const WORD_BYTES: usize = 4;

/// The word in this slot of a node: a page's address in a direct node (`direct_node.addr`), a nid in an
/// indirect node (`indirect_node.nid`), and 0 where there is none.
pub fn read_word(b: &Block, slot: u16) -> u32
    requires { slot < node_slots }
    ensures { result ≡ node_word b.now slot }
{
    get32(b, WORD_BYTES * slot as usize)
}

/// Puts a word into this slot of a node. No other slot changes, nor does the footer.
pub fn write_word(b: &mut Block, slot: u16, v: u32)
    requires { slot < node_slots }
    ensures written { b.new ≡ with_node_word b.old slot v }
    ensures reads_back { node_word b.new slot ≡ v }
    ensures others { (s : ℕ) → s < node_slots → s ≢ slot → node_word b.new s ≡ node_word b.old s }
    ensures footer { drop FOOTER_START b.new ≡ drop FOOTER_START b.old }
{
    put32(b, WORD_BYTES * slot as usize, v);
}
