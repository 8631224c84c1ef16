//! Worked scripts, through the top call: one table of commands and what they print, one of commands on a disk, and a script
//! whose reads and writes fail one after another; and the one call of the core that no script makes.
ghost use Rattle.f2_core.specs.Events.{IsServed};

use f2_core::{Core, making_writes};
use f2_disk::{Bench, Disk, MemBench, MemDisk, MemSink, MemSource};
use f2_layout::Geometry;
use f2_model::{Event, Request};
use f2_top::{Status, run_plain};
use std::alloc::{AllocError, Global};
use std::test::Fail;

/// In each line a name, the words of a command, its script, the number that it ends with, and all that is printed. A
/// `;` ends a line of a script and of what is printed.
const TABLE: &str = "empty script|replay||0|
fresh image|replay|mkfs 128 1;tree|0|ok mkfs 9 30;/ dir
too few blocks|replay|mkfs 127 1|8|f2n: geometry blocks 127
checkpoint survives|replay|mkfs 128 1;call 1 create /a;call 1 write /a 0 1 65 1 1 66;call 1 sync;crash 0;mount;tree|0|ok mkfs 9 30;ok;ok;ok sync;ok;ok mount 0;/ dir;/a file 2 1 197
node zone full|replay|mkfs 128 1;call 1 create /1;call 1 create /2;call 1 create /3;call 1 create /4;call 1 create /5;call 1 create /6;call 1 create /7;call 1 create /8;call 1 create /9|0|ok mkfs 9 30;ok;ok;ok;ok;ok;ok;ok;ok;nospace node 10 9
data zone full|replay|mkfs 128 1;call 1 create /a;call 1 write /a 0 65536 1;call 1 write /a 65536 65536 1;call 1 write /a 65536 53248 1|0|ok mkfs 9 30;ok;ok;nospace data 33 30;ok
unknown line|replay|mkfs 128 1;cal 1 sync|3|f2n: script line 2
unknown words|replay x||1|f2n: usage
no words|||1|f2n: usage
no checkpoint|replay|mkfs 128 1;call 1 create /a;crash 0;call 1 write /a 0 1 65;tree;mount;tree|0|ok mkfs 9 30;ok;ok;closed;closed;ok mount 0;/ dir
open already|replay|mkfs 128 1;mount;call 1 sync;call 2 create /a|0|ok mkfs 9 30;mounted;ok sync;ok
refused creates|replay|mkfs 128 1;call 1 create /a//b;call 1 create /;call 1 create /a;call 1 create /a;call 1 create /a/b;call 1 create /b/c|0|ok mkfs 9 30;badname;exists;ok;exists;notdir;noent
refused writes|replay|mkfs 128 1;call 1 create /a;call 1 write /a//b 0 1 1;call 1 write / 0 1 1;call 1 write /b 0 1 1;call 1 write /a/b 0 1 1;call 1 write /a 3780608 1 1;call 1 write /a 18446744073709551615 1 1|0|ok mkfs 9 30;ok;badname;isdir;noent;notdir;toobig;toobig
last data block|replay|mkfs 128 1;call 1 create /a;call 1 write /a 0 65536 1;call 1 write /a 61440 57344 1;call 1 write /a 3776512 1 1;call 1 write /a 0 65536 1|0|ok mkfs 9 30;ok;ok;ok;nospace data 31 30;ok";

/// In each line a name, the words of a command on an image, the blocks of its disk, which are blank, the number that it ends
/// with, and the line that is printed.
const IMAGES: &str = "as large as the disk|mkfs image 128 1|128|0|ok mkfs 9 30
smaller than the disk|mkfs image 128 1|130|0|ok mkfs 9 30
larger than the disk|mkfs image 128 1|100|8|f2n: geometry device 100
no disk|mkfs image 128 1|0|8|f2n: geometry device 0
too few blocks|mkfs image 127 1|0|8|f2n: geometry blocks 127
too many blocks|mkfs image 65537 1|128|8|f2n: geometry blocks 65537
the most that a word can say|mkfs image 4294967295 1|128|8|f2n: geometry blocks 4294967295
more than a word can say|mkfs image 4294967296 1|128|1|f2n: usage
no table|mkfs image 128 0|128|8|f2n: geometry nat 0
no room for the zones|mkfs image 128 40|128|8|f2n: geometry zones 3
too few nids|mkfs image 2048 1|128|8|f2n: geometry nids 455
a leading zero|mkfs image 0128 1|128|1|f2n: usage
a sign|mkfs image 128 +1|128|1|f2n: usage
no sizes|mkfs image|128|1|f2n: usage
one word more|mkfs image 128 1 1|128|1|f2n: usage
no image|tree image|128|7|f2n: badimage badsuper 0
no block of an image|tree image|0|7|f2n: badimage badsuper 0
no image named|tree|128|1|f2n: usage
two images named|tree image image|128|1|f2n: usage";

/// The text with a byte 10 at the end of each line.
fn lines(alloc: Global, text: &str) -> Result<Vec<u8>, AllocError> {
    let mut lines = Vec::new(alloc);
    for byte in text.as_bytes() {
        lines.push(if *byte == b';' { b'\n' } else { *byte })?;
    }
    if !text.is_empty() {
        lines.push(b'\n')?;
    }
    Ok(lines)
}

/// The words between the spaces of a text.
fn words(alloc: Global, text: &str) -> Result<Vec<String>, AllocError> {
    let mut words = Vec::new(alloc);
    for word in text.split(' ') {
        words.push(String::from_str(alloc, word)?)?;
    }
    Ok(words)
}

/// How a command ends, and all that is printed, where these reads and writes fail.
fn run(
    alloc: Global,
    words: &[String],
    script: &[u8],
    reads: &[u32],
    writes: &[u32],
) -> Result<(Status, Vec<u8>), AllocError> {
    let mut source = MemSource::new(alloc, script, reads)?;
    let mut sink = MemSink::new(alloc, 256, writes)?;
    let bench = MemBench::new(alloc)?;
    let disk = MemDisk::new(alloc, 0)?;
    let (status, _, _) = run_plain(alloc, words, &mut source, &mut sink, bench, disk);
    let text = Vec::from_slice(alloc, sink.bytes())?;
    Ok((status, text))
}

/// Whether a command on a disk of its own ends, and prints, as its line of the table says.
fn makes_as_said(alloc: Global, row: &str) -> Result<bool, AllocError> {
    let mut parts = row.split('|').skip(1);
    let words = words(alloc, parts.next().unwrap_or(""))?;
    let blocks = parts.next().unwrap_or("").parse().unwrap_or(0);
    let number = parts.next().unwrap_or("").parse().unwrap_or(u8::MAX);
    let printed = lines(alloc, parts.next().unwrap_or(""))?;
    let mut source = MemSource::new(alloc, b"", &[])?;
    let mut sink = MemSink::new(alloc, 256, &[])?;
    let bench = MemBench::new(alloc)?;
    let disk = MemDisk::new(alloc, blocks)?;
    let (status, _, _) = run_plain(alloc, words.as_slice(), &mut source, &mut sink, bench, disk);
    Ok(status.number() == number && sink.bytes() == printed.as_slice())
}

/// Whether a command ends, and prints, as its line of the table says.
fn is_as_said(alloc: Global, row: &str) -> Result<bool, AllocError> {
    let mut parts = row.split('|').skip(1);
    let words = words(alloc, parts.next().unwrap_or(""))?;
    let script = lines(alloc, parts.next().unwrap_or(""))?;
    let number = parts.next().unwrap_or("").parse().unwrap_or(u8::MAX);
    let printed = lines(alloc, parts.next().unwrap_or(""))?;
    let (status, text) = run(alloc, words.as_slice(), script.as_slice(), &[], &[])?;
    Ok(status.number() == number && text.as_slice() == printed.as_slice())
}

#[test]
fn commands_print_what_is_said(rt: HostRuntime) -> Result<(), Fail> {
    for row in TABLE.lines() {
        assert!(rt; is_as_said(rt.alloc(), row)?, "{row}");
    }
    Ok(())
}

#[test]
fn images_are_made_as_said(rt: HostRuntime) -> Result<(), Fail> {
    for row in IMAGES.lines() {
        assert!(rt; makes_as_said(rt.alloc(), row)?, "{row}");
    }
    Ok(())
}

/// Whether the tree of an image that was just made has its root alone.
fn a_new_image_has_its_root(alloc: Global) -> Result<bool, Fail> {
    let mut holds = true;
    let mut source = MemSource::new(alloc, b"", &[])?;
    let mut sink = MemSink::new(alloc, 256, &[])?;
    let bench = MemBench::new(alloc)?;
    let disk = MemDisk::new(alloc, 128)?;
    let make = words(alloc, "mkfs image 128 1")?;
    let show = words(alloc, "tree image")?;
    let (made, bench, disk) = run_plain(
        alloc,
        make.as_slice(),
        &mut source,
        &mut sink,
        bench,
        disk,
    );
    let (shown, _, _) = run_plain(alloc, show.as_slice(), &mut source, &mut sink, bench, disk);
    holds &= made == Status::Done;
    holds &= shown == Status::Done;
    holds &= sink.bytes() == b"ok mkfs 9 30\n/ dir\n".as_slice();
    Ok(holds)
}

fn a_script_may_be_too_long(alloc: Global) -> Result<bool, Fail> {
    let mut holds = true;
    let words = words(alloc, "replay")?;
    let script = vec![in alloc; b'a'; 1_048_577]?;
    let (status, text) = run(alloc, words.as_slice(), script.as_slice(), &[], &[])?;
    holds &= status == Status::TooLong;
    holds &= text.as_slice() == b"f2n: toolong\n".as_slice();
    Ok(holds)
}

/// A script whose file is there after a crash.
const SURVIVES: &str =
    "mkfs 128 1;call 1 create /a;call 1 write /a 0 1 65 1 1 66;call 1 sync;crash 0;mount;tree";

/// What it prints, a `|` between each two writes to its sink: each line of the script prints by one write.
const PRINTED: &str = "ok mkfs 9 30|ok|ok|ok sync|ok|ok mount 0|/ dir;/a file 2 1 197";

/// What the first so many writes to its sink print.
fn first_writes(alloc: Global, count: usize) -> Result<Vec<u8>, AllocError> {
    let mut text = Vec::new(alloc);
    for part in PRINTED.split('|').take(count) {
        text.extend_from_slice(lines(alloc, part)?.as_slice())?;
    }
    Ok(text)
}

/// Whether that script ends so where these reads and writes fail, and prints what its first so many writes do.
fn ends_after(
    alloc: Global,
    count: usize,
    want: Status,
    reads: &[u32],
    writes: &[u32],
) -> Result<bool, AllocError> {
    let words = words(alloc, "replay")?;
    let script = lines(alloc, SURVIVES)?;
    let printed = first_writes(alloc, count)?;
    let (status, text) = run(alloc, words.as_slice(), script.as_slice(), reads, writes)?;
    Ok(status == want && text.as_slice() == printed.as_slice())
}

#[test]
fn each_read_and_write_may_fail(rt: HostRuntime) -> Result<(), Fail> {
    let alloc = rt.alloc();
    // The first read gives the whole script, and the second finds its end.
    for n in 1..3 {
        assert!(rt;
            ends_after(alloc, 0, Status::SourceFault, &[n], &[])?,
            "read {n}"
        );
    }
    for n in 0..7 {
        assert!(rt;
            ends_after(alloc, n as usize, Status::SinkFault, &[], &[n + 1])?,
            "write {n}"
        );
    }
    // There is no third read and no eighth write.
    assert!(rt; ends_after(alloc, 7, Status::Done, &[3], &[8])?);
    Ok(())
}

/// A closed core on a new image of 128 blocks.
fn core(alloc: Global) -> Result<Core<MemBench>, Fail> {
    let geometry = Geometry::new(128, 1)?;
    let mut bench = MemBench::new(alloc)?;
    bench.start(128)?;
    bench.ready(making_writes(&geometry))?;
    if bench.blocks() < geometry.blocks() {
        return Err("a bench of 128 blocks".into());
    }
    match Core::made(alloc, bench, geometry) {
        Ok(core) => Ok(core),
        Err(_) => Err("an image".into()),
    }
}

/// A seat makes a checkpoint.
fn sync() -> Event
    ensures { IsServed result }
{
    Event::Begin {
        seat: 1,
        request: Request::Sync,
    }
}

fn a_core_runs_events_in_order(alloc: Global) -> Result<bool, Fail> {
    let mut holds = true;
    let mut core = core(alloc)?;
    core.ready(500)?;
    let mut events = Vec::new(alloc);
    events.push(Event::Mount)?;
    events.push(sync())?;
    let answers = core.run(events)?;
    holds &= answers.len() == 2;
    holds &= core.into_disk().blocks() == 128;
    Ok(holds)
}

#[test]
fn all_of_top(rt: HostRuntime) -> Result<(), Fail> {
    assert!(rt; a_new_image_has_its_root(rt.alloc())?);
    assert!(rt; a_script_may_be_too_long(rt.alloc())?);
    assert!(rt; a_core_runs_events_in_order(rt.alloc())?);
    Ok(())
}
