use f2_disk::{
    Bench, Block, CallKind, Disk, Failed, MemBench, MemDisk, MemSink, MemSource, Sink, Source,
    StdSink, StdSource, SureSource,
};
use std::alloc::Global;
use std::io::Cursor;
use std::test::Fail;

static SEVENS: Block = [7; 4096];

static EIGHTS: Block = [8; 4096];

fn a_source_gives_its_bytes(alloc: Global) -> Result<bool, Fail> {
    let mut into = [0; 4];
    let mut sure = SureSource::new(alloc, b"abc")?;
    let first = sure.read(&mut into);
    let last = sure.read(&mut into);
    Ok(first == Ok(3) && last == Ok(0) && into == *b"abc\0")
}

fn a_source_fails_as_it_is_asked_to(alloc: Global) -> Result<bool, Fail> {
    let mut into = [0; 2];
    let mut source = MemSource::new(alloc, b"xyz", &[2])?;
    let first = source.read(&mut into);
    let failed = source.read(&mut into);
    let last = source.read(&mut into);
    Ok((first, failed, last) == (Ok(2), Err(Failed), Ok(1)) && into[0] == b'z')
}

fn what_is_outside_is_read() -> bool {
    let mut into = [0; 4];
    StdSource::new(Cursor::new(b"pq")).read(&mut into) == Ok(2)
}

fn sinks_take_what_they_have_room_for(alloc: Global) -> Result<bool, Fail> {
    let mut holds = true;
    let mut sink = MemSink::new(alloc, 3, &[2])?;
    holds &= sink.write(b"ab") == Ok(2);
    holds &= sink.write(b"c") == Err(Failed);
    holds &= sink.write(b"cd") == Ok(1);
    holds &= sink.write(b"d") == Err(Failed);
    holds &= sink.bytes() == b"abc".as_slice();

    let mut outside = StdSink::new(Vec::new(alloc));
    holds &= outside.write(b"pq") == Ok(2);
    Ok(holds)
}

fn a_disk_in_memory_keeps_its_blocks(alloc: Global) -> Result<bool, Fail> {
    let mut into = [0; 4096];
    let mut disk = MemDisk::new(alloc, 2)?;
    disk.write(1, &SEVENS)?;
    disk.flush()?;
    disk.read(1, &mut into)?;
    Ok(into[4095] == 7 && disk.blocks() == 2 && disk.faults() == 0)
}

fn a_crash_keeps_what_the_pick_numbers(alloc: Global) -> Result<bool, Fail> {
    let mut into = [0; 4096];
    let mut bench = MemBench::new(alloc)?;
    bench.start(2)?;
    bench.ready(3)?;
    bench.write(0, &SEVENS)?;
    bench.write(0, &EIGHTS)?;
    bench.write(1, &SEVENS)?;
    // Block 0 has three contents and block 1 has two: 4 is 1 + 3 * 1.
    bench.crash(4);
    bench.read(0, &mut into)?;
    let first = into[0];
    bench.read(1, &mut into)?;
    Ok((first, into[0]) == (7, 7))
}

fn a_bench_fails_as_it_is_asked_to(alloc: Global) -> Result<bool, Fail> {
    let mut bench = MemBench::new(alloc)?;
    bench.start(1)?;
    bench.ready(1)?;
    bench.fail_at(CallKind::Write, 1);
    let failed = bench.write(0, &SEVENS).is_err();
    bench.stop_after(1);
    let flushed = bench.flush().is_ok();
    let stopped = bench.flush().is_err();
    Ok(failed && flushed && stopped && bench.faults() == 2)
}

#[test]
fn all_of_disk(rt: HostRuntime) -> Result<(), Fail> {
    assert!(rt; a_source_gives_its_bytes(rt.alloc())?);
    assert!(rt; a_source_fails_as_it_is_asked_to(rt.alloc())?);
    assert!(rt; what_is_outside_is_read());
    assert!(rt; sinks_take_what_they_have_room_for(rt.alloc())?);
    assert!(rt; a_disk_in_memory_keeps_its_blocks(rt.alloc())?);
    assert!(rt; a_crash_keeps_what_the_pick_numbers(rt.alloc())?);
    assert!(rt; a_bench_fails_as_it_is_asked_to(rt.alloc())?);
    Ok(())
}
