//! Which copy of each block of the node address table counts.

ghost use Rattle.std.specs.Prelude.{◌≡◌, ◌≢◌, ℕ, ◌<◌, Bool, not, false};
ghost use Rattle.f2_format.specs.Bytes.{zeros};
ghost use Rattle.f2_format.specs.Nat.{is_second_copy, with_other_copy};

use std::marker::Model;

/// The bytes of a bitmap.
pub const BITMAP_BYTES: usize = 128;

/// One bit for each block of the node address table: 0 where the first copy counts, 1 where the second does.
///
/// It is seen as its bytes, as they stand in the head of a checkpoint pack.
#[derive(Clone, Copy, Debug, PartialEq, Eq)]
pub struct Bitmap {
    bytes: [u8; BITMAP_BYTES],
}

impl Model for Bitmap {
    ghost use Rattle.std.specs.Prelude.{List, ℕ};

    ghost Value = { List ℕ };

    ghost view = { λ b. b.bytes };

    ghost inverse = { λ bytes. record { bytes = bytes } };
}

impl Bitmap {
    /// The first copy of every block counts.
    pub fn new() -> Bitmap
        ensures value { result ≡ zeros BITMAP_BYTES }
        ensures first_copies { (b : ℕ) → is_second_copy result b ≡ false }
    {
        Bitmap {
            bytes: [0; BITMAP_BYTES],
        }
    }

    /// The bitmap with these bytes.
    pub fn from_bytes(bytes: [u8; BITMAP_BYTES]) -> Bitmap
        ensures { result ≡ bytes }
    {
        Bitmap { bytes }
    }

    /// The bytes of the bitmap.
    pub fn bytes(&self) -> [u8; BITMAP_BYTES]
        ensures { result ≡ self.now }
    {
        self.bytes
    }

    /// Whether the second copy of the block counts.
    pub fn get(&self, block: u32) -> bool
        requires { block < 1024 }
        ensures { result ≡ is_second_copy self.now block }
    {
        let byte = self.bytes[block as usize / 8];
        byte >> (7 - block % 8) & 1 == 1
    }

    /// Makes the other copy of the block count. No other bit changes.
    pub fn flip(&mut self, block: u32)
        requires { block < 1024 }
        ensures flipped { self.new ≡ with_other_copy self.old block }
        ensures other_copy { is_second_copy self.new block ≡ not (is_second_copy self.old block) }
        ensures others { (b : ℕ) → b ≢ block → is_second_copy self.new b ≡ is_second_copy self.old b }
    {
        self.bytes[block as usize / 8] ^= 1 << (7 - block % 8);
    }
}
