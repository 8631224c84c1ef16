//! An entry's bytes, the places of nids, and a bitmap.

use f2_nat_block::{Bitmap, NatEntry, entry, locate, set};
use std::test::Fail;

fn an_entry_has_its_bytes() -> Result<bool, Fail> {
    let mut holds = true;
    let mut block = [255; 4096];
    let written = NatEntry { ino: 4, addr: 11 };
    set(&mut block, 4, written);
    holds &= &block[36..45] == [0, 4, 0, 0, 0, 11, 0, 0, 0].as_slice();
    holds &= (block[35], block[45]) == (255, 255);
    holds &= entry(&block, 4) == written;
    holds &= locate(454) == (0, 454);
    holds &= locate(455) == (1, 0);
    Ok(holds)
}

fn the_first_block_has_the_highest_bit() -> Result<bool, Fail> {
    let mut holds = true;
    let mut bitmap = Bitmap::new();
    bitmap.flip(0);
    bitmap.flip(9);
    let bytes = bitmap.bytes();
    holds &= (bytes[0], bytes[1], bytes[2]) == (128, 64, 0);
    holds &= bitmap.get(0) && !bitmap.get(1) && bitmap.get(9);
    holds &= Bitmap::from_bytes(bytes) == bitmap;
    Ok(holds)
}

#[test]
fn all_of_nat_block(rt: HostRuntime) -> Result<(), Fail> {
    assert!(rt; an_entry_has_its_bytes()?);
    assert!(rt; the_first_block_has_the_highest_bit()?);
    Ok(())
}
