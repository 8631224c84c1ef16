//! Node logs that are scanned.

ghost use Rattle.std.specs.Prelude.{◌≤◌};

use f2_disk::{Bench, CallKind, Disk, MemBench, MemDisk};
use f2_footer::Footer;
use f2_layout::Geometry;
use f2_node_block::InodeFault;
use f2_scan::{Chain, ScanFault, scan};
use std::alloc::Global;
use std::test::Fail;

/// The first block of the node zone of the smallest image, which has 27 of them.
const FIRST: u32 = 10;

/// The version that the blocks of a log carry.
const VERSION: u64 = 7;

/// The upper byte of the mode of a regular file.
const REGULAR: u8 = 0x81;

/// A block of zeros, but for its footer and the upper byte of its mode.
#[derive(Clone, Copy)]
struct Put {
    at: u32,
    cp_ver: u64,
    next: u32,
    fsync: bool,
    mode: u8,
}

/// An unmarked block.
fn unmarked(at: u32, cp_ver: u64, next: u32) -> Put {
    Put {
        at,
        cp_ver,
        next,
        fsync: false,
        mode: 0,
    }
}

/// The only block of a log, an inode with the fsync mark.
fn marked(mode: u8) -> Put {
    Put {
        at: FIRST,
        cp_ver: VERSION,
        next: 0,
        fsync: true,
        mode,
    }
}

/// Writes these blocks.
fn write_all<D: Disk>(disk: &mut D, puts: &[Put]) -> Result<(), Fail> {
    for put in puts {
        let mut block = [0; 4096];
        block[1] = put.mode;
        let footer = Footer {
            nid: 4,
            ino: 4,
            offset: 0,
            fsync: put.fsync,
            dent: false,
            cp_ver: put.cp_ver,
            next: put.next,
        };
        f2_footer::write(&mut block, footer);
        if put.at < disk.blocks() {
            disk.write(put.at, &block)?;
        }
    }
    Ok(())
}

/// Whether the blocks of a chain stand at these addresses.
fn are_at(chain: &Chain, addresses: &[u32]) -> bool {
    let blocks = chain.blocks();
    chain.len() == addresses.len()
        && blocks
            .iter()
            .zip(addresses)
            .all(|(logged, at)| logged.at == *at)
}

/// Whether a scan of a disk finds blocks at these addresses, or comes to this fault.
fn is_scanned<D: Disk>(
    alloc: Global,
    disk: &mut D,
    want: Result<&[u32], ScanFault>,
) -> Result<bool, Fail> {
    let geometry = Geometry::new(128, 1)?;
    if !geometry.in_node(FIRST) || disk.blocks() < geometry.blocks() {
        return Ok(false);
    }
    Ok(match scan(alloc, disk, &geometry, FIRST, VERSION) {
        Ok(chain) => match want {
            Ok(addresses) => are_at(&chain, addresses),
            Err(_) => false,
        },
        Err(fault) => want.err() == Some(fault),
    })
}

/// Whether a scan of the smallest image with these blocks comes to this.
fn comes_to(alloc: Global, puts: &[Put], want: Result<&[u32], ScanFault>) -> Result<bool, Fail> {
    let mut disk = MemDisk::new(alloc, 128)?;
    write_all(&mut disk, puts)?;
    is_scanned(alloc, &mut disk, want)
}

fn a_log_ends(alloc: Global) -> Result<bool, Fail> {
    let by_zero = [unmarked(10, VERSION, 36), unmarked(36, VERSION, 0)];
    let by_version = [unmarked(10, VERSION, 36), unmarked(36, VERSION + 1, 0)];
    Ok(
        comes_to(alloc, &[], Ok(&[]))?
            && comes_to(alloc, &by_zero, Ok(&[10, 36]))?
            && comes_to(alloc, &by_version, Ok(&[10]))?,
    )
}

fn a_wrong_address_is_told(alloc: Global) -> Result<bool, Fail> {
    let out = [unmarked(10, VERSION, 11), unmarked(11, VERSION, 37)];
    let round = [unmarked(10, VERSION, 11), unmarked(11, VERSION, 10)];
    // A third has nine blocks, so the tenth step is again at 11.
    Ok(
        comes_to(alloc, &out, Err(ScanFault::OutOfZone { at: 37 }))?
            && comes_to(alloc, &round, Err(ScanFault::ChainLong { at: 11 }))?,
    )
}

fn a_marked_inode_is_looked_at(alloc: Global) -> Result<bool, Fail> {
    let odd = ScanFault::BadInode {
        at: 10,
        why: InodeFault::Kind,
    };
    Ok(comes_to(alloc, &[marked(REGULAR)], Ok(&[10]))? && comes_to(alloc, &[marked(0)], Err(odd))?)
}

/// Whether a scan of a log of two blocks, whose `nth` read fails, comes to this.
fn comes_to_with_a_fault(
    alloc: Global,
    nth: u32,
    want: Result<&[u32], ScanFault>,
) -> Result<bool, Fail>
    requires { 1 ≤ nth }
{
    let mut bench = MemBench::new(alloc)?;
    bench.start(128)?;
    bench.ready(2)?;
    write_all(
        &mut bench,
        &[unmarked(10, VERSION, 11), unmarked(11, VERSION, 0)],
    )?;
    bench.fail_at(CallKind::Read, nth);
    is_scanned(alloc, &mut bench, want)
}

fn each_block_is_read_once(alloc: Global) -> Result<bool, Fail> {
    Ok(
        comes_to_with_a_fault(alloc, 2, Err(ScanFault::Read))?
            && comes_to_with_a_fault(alloc, 3, Ok(&[10, 11]))?,
    )
}

#[test]
fn all_of_scans(rt: HostRuntime) -> Result<(), Fail> {
    assert!(rt; a_log_ends(rt.alloc())?);
    assert!(rt; a_wrong_address_is_told(rt.alloc())?);
    assert!(rt; a_marked_inode_is_looked_at(rt.alloc())?);
    assert!(rt; each_block_is_read_once(rt.alloc())?);
    Ok(())
}
