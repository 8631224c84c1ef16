use f2_bytes::*;
use std::test::Fail;

fn the_lowest_byte_is_first() -> Result<bool, Fail> {
    let mut holds = true;
    let mut block = [9; 4096];
    put16(&mut block, 0, 0x0201);
    put32(&mut block, 2, 0x0403_0201);
    put64(&mut block, 4088, 0x0807_0605_0403_0201);
    holds &= &block[..7] == [1, 2, 1, 2, 3, 4, 9].as_slice();
    holds &= &block[4087..] == [9, 1, 2, 3, 4, 5, 6, 7, 8].as_slice();
    holds &= (get16(&block, 0), get32(&block, 2)) == (0x0201, 0x0403_0201);
    holds &= get64(&block, 4088) == 0x0807_0605_0403_0201;
    Ok(holds)
}

// The values are those of CRC-32 with this seed and no complement, as zlib computes it.
fn seals_are_check_sums() -> Result<bool, Fail> {
    let mut holds = true;
    let mut block = [0; 4096];
    holds &= seal(&block) == 0x169B_1BA7;
    put16(&mut block, 10, 0x1234);
    block[4091] = 0x80;
    holds &= seal(&block) == 0xCBCC_086C;
    block[4092] = 1;
    holds &= seal(&block) == 0xCBCC_086C;
    Ok(holds)
}

#[test]
fn all_of_bytes(rt: HostRuntime) -> Result<(), Fail> {
    assert!(rt; the_lowest_byte_is_first()?);
    assert!(rt; seals_are_check_sums()?);
    Ok(())
}
