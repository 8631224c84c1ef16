ghost use Rattle.std.specs.Prelude.{◌≡◌};

use f2_disk::{Block, Disk, DiskFault};
use f2_file_disk::FileDisk;
use std::fs;
use std::fs::OpenOptions;
use std::test::Fail;

/// A file that the tests make, and remove at their end.
const IMAGE: &str = "f2_file_tests.image";

static SEVENS: Block = [7; 4096];

static EIGHTS: Block = [8; 4096];

static NINES: Block = [9; 4096];

/// Writes three blocks, the middle one last.
fn write_three<D: Disk + Send>(disk: &mut D) -> Result<(), DiskFault>
    requires { (D.meter disk.old).blocks ≡ 3 }
    ensures { (D.meter disk.new).blocks ≡ 3 }
{
    disk.write(0, &SEVENS)?;
    disk.write(2, &NINES)?;
    disk.write(1, &EIGHTS)?;
    disk.flush()
}

/// Whether three blocks read as they were written.
fn reads_three<D: Disk + Send>(disk: &mut D) -> Result<bool, DiskFault>
    requires { (D.meter disk.old).blocks ≡ 3 }
    ensures { (D.meter disk.new).blocks ≡ 3 }
{
    let mut into = [0; 4096];
    disk.read(1, &mut into)?;
    let mut holds = into == EIGHTS;
    disk.read(2, &mut into)?;
    holds &= into == NINES;
    disk.read(0, &mut into)?;
    holds &= into == SEVENS;
    Ok(holds)
}

fn three_blocks_go_round(rt: &HostRuntime) -> Result<bool, Fail> {
    let mut disk = FileDisk::make(rt, IMAGE, 3);
    if disk.blocks() != 3 {
        return Ok(false);
    }
    write_three(&mut disk)?;
    Ok(reads_three(&mut disk)? && disk.faults() == 0)
}

/// The file has the blocks in their order, and nothing else.
fn the_file_has_them(rt: &HostRuntime) -> Result<bool, Fail> {
    let bytes = fs::read(rt, IMAGE)?;
    let mut holds = bytes.len() == 3 * 4096;
    for (place, byte) in bytes.iter().enumerate() {
        let wanted = match place / 4096 {
            0 => 7,
            1 => 8,
            _ => 9,
        };
        holds &= *byte == wanted;
    }
    Ok(holds)
}

fn who_opens_it_later_reads_them(rt: &HostRuntime) -> Result<bool, Fail> {
    let mut disk = FileDisk::open(rt, IMAGE);
    if disk.blocks() != 3 {
        return Ok(false);
    }
    Ok(reads_three(&mut disk)? && disk.faults() == 0)
}

/// Of a file that ends in a part of a block, the part is no block, and is left alone.
fn a_part_of_a_block_stays(rt: &HostRuntime) -> Result<bool, Fail> {
    set_length(rt, 3 * 4096 + 5)?;
    let mut disk = FileDisk::open(rt, IMAGE);
    if disk.blocks() != 3 {
        return Ok(false);
    }
    write_three(&mut disk)?;
    Ok(fs::metadata(rt, IMAGE)?.len() == 3 * 4096 + 5)
}

/// The file ends within block 1 while it is open.
fn a_file_cut_short_fails(rt: &HostRuntime) -> Result<bool, Fail> {
    let mut disk = FileDisk::make(rt, IMAGE, 3);
    if disk.blocks() != 3 {
        return Ok(false);
    }
    set_length(rt, 6000)?;
    let mut into = [0; 4096];
    let first = disk.read(0, &mut into);
    let cut = disk.read(1, &mut into);
    let gone = disk.read(2, &mut into);
    Ok((first, cut, gone) == (Ok(()), Err(DiskFault), Err(DiskFault)) && disk.faults() == 2)
}

/// No file has this name.
fn no_file_is_a_disk_that_fails(rt: &HostRuntime) -> bool {
    let mut disk = FileDisk::open(rt, "f2_file_tests.none");
    let flushed = disk.flush();
    disk.blocks() == 0 && flushed == Err(DiskFault) && disk.faults() == 1
}

fn set_length(rt: &HostRuntime, bytes: u64) -> Result<(), Fail> {
    OpenOptions::new()
        .write(true)
        .open(rt, IMAGE)?
        .set_len(bytes)?;
    Ok(())
}

#[test]
fn all_of_file_disk(rt: HostRuntime) -> Result<(), Fail> {
    assert!(rt; three_blocks_go_round(&rt)?);
    assert!(rt; the_file_has_them(&rt)?);
    assert!(rt; who_opens_it_later_reads_them(&rt)?);
    assert!(rt; a_part_of_a_block_stays(&rt)?);
    assert!(rt; a_file_cut_short_fails(&rt)?);
    assert!(rt; no_file_is_a_disk_that_fails(&rt));
    fs::remove_file(&rt, IMAGE)?;
    Ok(())
}
