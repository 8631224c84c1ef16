//! The program `f2n`: runs a command of `f2_top` on standard input and output and on the image file that its words name,
//! and ends with the number of its status.
#![tactic(auto)]

use f2_disk::{MemBench, StdSink, StdSource};
use f2_file_disk::FileDisk;
use f2_layout::Geometry;
use f2_model::Meet;
use f2_top::{Status, is_tree, run, sizes_asked};
use std::alloc::AllocError;
use std::fs::{File, Files};
use std::process::ExitCode;
use std::rt::Env;
use std::sync::Wait;
use std::thread::Threads;
use std::{env, io};

/// Workers that don't wait for each other.
struct NoMeeting;

impl Meet for NoMeeting {
    fn before(&self, _seat: u8, _call: u32) {}

    fn after(&self, _seat: u8, _call: u32) {}
}

/// The words after the program's name. Arguments that aren't text are no words, and so no command.
fn words<R: Env + AllocGlobal>(rt: &R) -> Result<Vec<String>, AllocError> {
    match env::args(rt) {
        Ok(args) => args.skip(1).collect(rt.alloc()),
        Err(error) if error.kind() == io::ErrorKind::OutOfMemory => Err(AllocError),
        Err(_) => Ok(Vec::new(rt.alloc())),
    }
}

/// The disk of a command. The words `mkfs IMAGE B N` make the file IMAGE as long as an image of B blocks, where these
/// sizes break no limit, and the words `tree IMAGE` open it. With sizes that break one, and for other words, no file is
/// touched.
fn disk_of_words<R: Files<File = File>>(rt: &R, words: &[String]) -> FileDisk {
    let [_, image, ..] = words else {
        return FileDisk::none();
    };
    match sizes_asked(words) {
        Some(sizes) if Geometry::new(sizes.blocks, sizes.nat).is_ok() => {
            FileDisk::make(rt, image.as_str(), sizes.blocks)
        }
        None if is_tree(words) => FileDisk::open(rt, image.as_str()),
        _ => FileDisk::none(),
    }
}

/// Runs the command that the arguments name.
fn run_command<R: Env + AllocGlobal + Files<File = File> + Input + Print + Threads + Wait + Sync>(
    rt: &R,
) -> Result<Status, AllocError> {
    let words = words(rt)?;
    let mut source = StdSource::new(rt.reader());
    let mut sink = StdSink::new(io::writer(rt));
    let bench = MemBench::new(rt.alloc())?;
    let disk = disk_of_words(rt, words.as_slice());
    let (status, _, _) = run(
        rt,
        rt.alloc(),
        words.as_slice(),
        &mut source,
        &mut sink,
        bench,
        disk,
        &NoMeeting,
    );
    Ok(status)
}

fn main(rt: HostRuntime) -> ExitCode {
    let status = run_command(&rt).unwrap_or(Status::Memory);
    ExitCode::from(status.number())
}
