//! Directories that are packed and read, and blocks with a fault.

ghost use Rattle.std.specs.Prelude.{All, IfOk};
ghost use Rattle.f2_dentry_block.specs.Packed.{HasNameLength};

use f2_bytes::Block;
use f2_dentry_block::{Dent, UnpackFault, pack, slots_of, unpack};
use f2_model::{Kind, Name};
use std::alloc::{AllocError, Global};
use std::test::Fail;

/// Dentries with those of the names that have 1 to 255 bytes: the first is a directory's with ino 4, and those after
/// it are files' with the numbers that follow.
fn dents_of(alloc: Global, names: &[&[u8]]) -> Result<Vec<Dent>, AllocError>
    ensures { IfOk result (λ dents. All (λ dent. HasNameLength dent.name) dents.items) }
{
    let mut dents = Vec::new(alloc);
    let mut ino = 4u32;
    let mut kind = Kind::Directory;
    for bytes in names {
        if !bytes.is_empty() && bytes.len() <= 255 {
            let name = Name::from_slice(alloc, bytes)?;
            dents.push(Dent { name, ino, kind })?;
            ino = ino.wrapping_add(1);
            kind = Kind::Regular;
        }
    }
    Ok(dents)
}

fn six_long_names_fill_a_block(alloc: Global) -> Result<bool, Fail> {
    let mut holds = true;
    let mut bytes = [[0; 255]; 7];
    for (place, name) in bytes.iter_mut().enumerate() {
        *name = [b'a' + place as u8; 255];
    }
    let mut names: Vec<&[u8]> = Vec::new(alloc);
    for name in &bytes {
        names.push(name.as_slice())?;
    }
    let dents = dents_of(alloc, names.as_slice())?;
    holds &= slots_of(dents.as_slice()) == 2;
    let blocks = pack(alloc, dents.as_slice())?;
    if blocks.len() != 2 {
        return Ok(false);
    }
    holds &= unpack(alloc, &blocks[0])?.len() == 6;
    holds &= unpack(alloc, &blocks[1])?.len() == 1;
    Ok(holds)
}

fn no_name_takes_no_block(alloc: Global) -> Result<bool, Fail> {
    let mut holds = true;
    let dents = dents_of(alloc, &[])?;
    holds &= pack(alloc, dents.as_slice())?.len() == 0;
    holds &= slots_of(dents.as_slice()) == 0;
    Ok(holds)
}

fn names_read_back(alloc: Global) -> Result<bool, Fail> {
    let mut holds = true;
    let names = [
        b"a".as_slice(),
        b"eight bs".as_slice(),
        b"nine byte".as_slice(),
    ];
    let dents = dents_of(alloc, &names)?;
    let blocks = pack(alloc, dents.as_slice())?;
    if blocks.len() != 1 {
        return Ok(false);
    }
    let block = &blocks[0];
    holds &= &block[..2] == [0b1111, 0].as_slice();
    holds &= &block[30..41] == [0, 0, 0, 0, 4, 0, 0, 0, 1, 0, 2].as_slice();
    holds &= &block[41..52] == [0, 0, 0, 0, 5, 0, 0, 0, 8, 0, 1].as_slice();
    holds &= &block[2384..2410] == b"a\0\0\0\0\0\0\0eight bsnine byte\0".as_slice();
    let read = unpack(alloc, block)?;
    holds &= read.len() == 3;
    for (dent, packed) in read.iter().zip(&dents) {
        holds &= dent.name.is_same(&packed.name);
        holds &= (dent.ino, dent.kind) == (packed.ino, packed.kind);
    }
    Ok(holds)
}

/// Changes the bytes at these places.
fn change(block: &mut Block, bytes: &[(usize, u8)]) {
    for (at, byte) in bytes {
        if let Some(place) = block.get_mut(*at) {
            *place = *byte;
        }
    }
}

fn the_first_wrong_name_is_told(alloc: Global) -> Result<bool, Fail> {
    let mut holds = true;
    let names = [b"nine byte".as_slice(), b"z".as_slice()];
    let dents = dents_of(alloc, &names)?;
    let blocks = pack(alloc, dents.as_slice())?;
    if blocks.len() != 1 {
        return Ok(false);
    }
    let cases = [
        ([(51, 9)].as_slice(), None),
        ([(0, 0b1011)].as_slice(), Some(3)),
        ([(38, 0), (62, 9)].as_slice(), Some(0)),
        ([(39, 1)].as_slice(), Some(0)),
        ([(0, 0b101)].as_slice(), Some(0)),
        ([(62, 3)].as_slice(), Some(2)),
        (
            [(26, 0b10_0000), (2381, 9), (2383, 1)].as_slice(),
            Some(213),
        ),
        ([(26, 0b10_0000), (2381, 8), (2383, 1)].as_slice(), None),
    ];
    for (bytes, slot) in &cases {
        let mut block = blocks[0];
        change(&mut block, bytes);
        let fault = slot.map(|slot| UnpackFault::Dent { slot });
        holds &= unpack(alloc, &block).err() == fault;
    }
    Ok(holds)
}

#[test]
fn all_of_dentry_block(rt: HostRuntime) -> Result<(), Fail> {
    assert!(rt; six_long_names_fill_a_block(rt.alloc())?);
    assert!(rt; no_name_takes_no_block(rt.alloc())?);
    assert!(rt; names_read_back(rt.alloc())?);
    assert!(rt; the_first_wrong_name_is_told(rt.alloc())?);
    Ok(())
}
