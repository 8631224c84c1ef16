//! Rows of bytes and of words in a block.

ghost use Rattle.std.specs.Prelude.{◌≡◌, ℕ, ◌+◌, ◌*◌, ◌^◌, ◌<◌, ◌≤◌, length, slice_index};
ghost use Rattle.std.specs.List.{flat_map};
ghost use Rattle.f2_format.specs.Bytes.{number_bytes, numbers_at, with_bytes};

use byteorder::{ByteOrder, LittleEndian};
use f2_bytes::Block;

const WORD_BYTES: usize = 4;

/// Puts bytes into the block from `at` on.
pub fn put_bytes(b: &mut Block, at: usize, bytes: &[u8])
    requires { at + length bytes.now ≤ 4096 }
    ensures { b.new ≡ with_bytes b.old at bytes.now }
{
    b[at..at + bytes.len()].copy_from_slice(bytes);
}

/// Puts words into the block from `at` on, one after another.
pub fn put_words(b: &mut Block, at: usize, words: &[u32])
    requires { at + 4 * length words.now ≤ 4096 }
    ensures written { b.new ≡ with_bytes b.old at (flat_map (number_bytes 4) words.now) }
    ensures fits { (k : ℕ) → slice_index words.now k < 2 ^ 32 }
{
    LittleEndian::write_u32_into(words, &mut b[at..at + WORD_BYTES * words.len()]);
}

/// Reads the words from `at` on, as many as `into` has place for.
pub fn get_words(b: &Block, at: usize, into: &mut [u32])
    requires { at + 4 * length into.old ≤ 4096 }
    ensures { into.new ≡ numbers_at 4 b.now at (length into.old) }
{
    LittleEndian::read_u32_into(&b[at..at + WORD_BYTES * into.len()], into);
}
