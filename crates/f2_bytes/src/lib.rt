//! Numbers in a block of an image, and the seal of a block.
//!
//! The layers above read and write every field through [`get16`] to [`put64`]: a number stands with its
//! lowest byte first, and a put changes the bytes of its field alone. [`seal`] is the check sum of a
//! checkpoint's head.
//!
//! The definitions stand in `f2_format`, in `specs/Bytes.antt` and `specs/Seal.antt`.
#![tactic(auto)]

ghost use Rattle.std.specs.Prelude.{◌≡◌, ◌+◌, ◌≤◌};
ghost use Rattle.f2_format.specs.Bytes.{number_at, number_bytes, with_bytes};
ghost use Rattle.f2_format.specs.Seal.{seal_of};
ghost use Rattle.f2_bytes.specs.Register.{register_with, shifted_of};

use byteorder::{ByteOrder, LittleEndian};

/// The bytes of a block.
pub const BLOCK_BYTES: usize = 4096;

/// A block of an image.
pub type Block = [u8; BLOCK_BYTES];

/// The number in the 2 bytes from `at` on.
pub fn get16(b: &Block, at: usize) -> u16
    requires { at + 2 ≤ 4096 }
    ensures { result ≡ number_at 2 b.now at }
{
    LittleEndian::read_u16(&b[at..])
}

/// The number in the 4 bytes from `at` on.
pub fn get32(b: &Block, at: usize) -> u32
    requires { at + 4 ≤ 4096 }
    ensures { result ≡ number_at 4 b.now at }
{
    LittleEndian::read_u32(&b[at..])
}

/// The number in the 8 bytes from `at` on.
pub fn get64(b: &Block, at: usize) -> u64
    requires { at + 8 ≤ 4096 }
    ensures { result ≡ number_at 8 b.now at }
{
    LittleEndian::read_u64(&b[at..])
}

/// Writes the number into the 2 bytes from `at` on.
pub fn put16(b: &mut Block, at: usize, v: u16)
    requires { at + 2 ≤ 4096 }
    ensures written { b.new ≡ with_bytes b.old at (number_bytes 2 v) }
    ensures reads_back { number_at 2 b.new at ≡ v }
{
    LittleEndian::write_u16(&mut b[at..], v);
}

/// Writes the number into the 4 bytes from `at` on.
pub fn put32(b: &mut Block, at: usize, v: u32)
    requires { at + 4 ≤ 4096 }
    ensures written { b.new ≡ with_bytes b.old at (number_bytes 4 v) }
    ensures reads_back { number_at 4 b.new at ≡ v }
{
    LittleEndian::write_u32(&mut b[at..], v);
}

/// Writes the number into the 8 bytes from `at` on.
pub fn put64(b: &mut Block, at: usize, v: u64)
    requires { at + 8 ≤ 4096 }
    ensures written { b.new ≡ with_bytes b.old at (number_bytes 8 v) }
    ensures reads_back { number_at 8 b.new at ≡ v }
{
    LittleEndian::write_u64(&mut b[at..], v);
}

/// The bytes of a block that its seal covers; the seal stands in the four bytes after them.
const SEALED_BYTES: usize = 4092;

/// The polynomial of the check sum but for its highest power, the lowest bit first.
const POLYNOMIAL: u32 = 0xEDB8_8320;

/// What is added to the first 32 bits.
const SEED: u32 = 0xF2F5_2010;

/// The seal that the block should have: the check sum of its first 4,092 bytes, with no last complement.
///
/// It is the remainder of a division of polynomials, which `f2_format` defines; here a register of 32 bits
/// takes in one byte after another.
pub fn seal(b: &Block) -> u32
    ensures { result ≡ seal_of b.now }
{
    let mut register = SEED;
    for byte in &b[..SEALED_BYTES] {
        register = with_byte(register, *byte);
    }
    register
}

/// The register once a byte was taken in.
fn with_byte(register: u32, byte: u8) -> u32
    ensures { result ≡ register_with register byte }
{
    let mut register = register ^ byte as u32;
    for _ in 0..u8::BITS {
        register = shifted(register);
    }
    register
}

/// The register once its highest power, which is its lowest bit, was divided away.
fn shifted(register: u32) -> u32
    ensures { result ≡ shifted_of register }
{
    if register & 1 == 1 {
        register >> 1 ^ POLYNOMIAL
    } else {
        register >> 1
    }
}
