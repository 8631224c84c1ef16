ghost use Rattle.std.specs.Prelude.{◌≡◌, ◌<◌, Option, None, OnErr, is_err, true, false};
ghost use Rattle.f2_disk.specs.Meter.{HasFailed, IsWithin};
ghost use Rattle.f2_file_disk.specs.FileDisk.{after_call, meter_of};

use crate::place::{bytes_of, whole_blocks};
use f2_disk::{Block, Disk, DiskFault};
use std::fs::{File, Files, OpenOptions};
use std::io;
use std::marker::Model;
use std::os::unix::fs::FileExt;

/// An image file as a disk. It has the whole blocks that the file had when it was opened, and bytes after them are left
/// alone. No write reaches past them, so none changes the file's length, unless something else cut it meanwhile.
///
/// A call fails where the system refuses it, and a read also where the file has become too short for it. Where no file
/// could be opened the disk has no blocks, and each flush fails.
#[derive(Drop)]
pub struct FileDisk {
    file: Option<File>,
    blocks: u32,
    faults: u64,
}

impl Model for FileDisk {
    ghost use Rattle.std.specs.Prelude.{◌≡◌, is_some, false};
    ghost use Rattle.f2_file_disk.specs.FileDisk.{FileState};

    ghost Value = { FileState };

    ghost view = { λ d. record { is_open = is_some d.file; blocks = d.blocks; faults = d.faults } };

    ghost invariant = { λ d. is_some d.file ≡ false → d.blocks ≡ 0 };
}

impl FileDisk {
    /// No file: a disk without blocks, of which each flush fails.
    pub fn none() -> FileDisk
        ensures { result ≡ record { is_open = false; blocks = 0; faults = 0 } }
    {
        FileDisk {
            file: None,
            blocks: 0,
            faults: 0,
        }
    }

    /// The file with this name, which is read and written.
    pub fn open<R: Files<File = File>>(rt: &R, path: &str) -> FileDisk
        ensures faults { result.faults ≡ 0 }
        ensures closed { result.is_open ≡ false → result.blocks ≡ 0 }
    {
        match open_file(rt, path) {
            Ok((file, blocks)) => FileDisk {
                file: Some(file),
                blocks,
                faults: 0,
            },
            Err(_) => FileDisk::none(),
        }
    }

    /// The file with this name, made where there is none, and cut or lengthened to this many blocks. What it held
    /// of them stays, and what is new is zeros.
    pub fn make<R: Files<File = File>>(rt: &R, path: &str, blocks: u32) -> FileDisk
        ensures faults { result.faults ≡ 0 }
        ensures closed { result.is_open ≡ false → result.blocks ≡ 0 }
        ensures open { result.is_open ≡ true → result.blocks ≡ blocks }
    {
        match make_file(rt, path, blocks) {
            Ok(file) => FileDisk {
                file: Some(file),
                blocks,
                faults: 0,
            },
            Err(_) => FileDisk::none(),
        }
    }

    /// Counts a call that failed.
    fn count(&mut self, failed: bool) -> Result<(), DiskFault>
        ensures fails { is_err result ≡ failed }
        ensures after { self.new ≡ after_call failed self.old }
    {
        if failed {
            self.faults = self.faults.saturating_add(1);
            return Err(DiskFault);
        }
        Ok(())
    }
}

impl Disk for FileDisk {
    ghost contents = { λ _. None };

    ghost meter = { meter_of };

    fn blocks(&self) -> u32 {
        self.blocks
    }

    fn faults(&self) -> u64 {
        self.faults
    }

    fn read(&mut self, at: u32, into: &mut Block) -> Result<(), DiskFault>
        requires { at < self.old.blocks }

        ensures after { self.new ≡ after_call (is_err result) self.old }

        ensures cause { OnErr result (HasFailed (meter_of self.old) (meter_of self.new)) }
        ensures within { IsWithin 0 (meter_of self.old) (meter_of self.new) }
    {
        let read = match &self.file {
            Some(file) => file.read_exact_at(into, bytes_of(at)).is_ok(),
            None => false,
        };
        self.count(!read)
    }

    fn write(&mut self, at: u32, from: &Block) -> Result<(), DiskFault>
        requires { at < self.old.blocks }

        ensures after { self.new ≡ after_call (is_err result) self.old }

        ensures cause { OnErr result (HasFailed (meter_of self.old) (meter_of self.new)) }
        ensures within { IsWithin 1 (meter_of self.old) (meter_of self.new) }
    {
        let written = match &self.file {
            Some(file) => file.write_all_at(from, bytes_of(at)).is_ok(),
            None => false,
        };
        self.count(!written)
    }

    /// What was written before reaches what the file stands on.
    fn flush(&mut self) -> Result<(), DiskFault>
        ensures closed { self.old.is_open ≡ false → is_err result ≡ true }
        ensures after { self.new ≡ after_call (is_err result) self.old }

        ensures cause { OnErr result (HasFailed (meter_of self.old) (meter_of self.new)) }
        ensures within { IsWithin 0 (meter_of self.old) (meter_of self.new) }
    {
        let flushed = match &self.file {
            Some(file) => file.sync_all().is_ok(),
            None => false,
        };
        self.count(!flushed)
    }
}

/// Opens a file, and tells how many whole blocks it has.
fn open_file<R: Files<File = File>>(rt: &R, path: &str) -> io::Result<(File, u32)> {
    let file = OpenOptions::new().read(true).write(true).open(rt, path)?;
    let blocks = whole_blocks(file.metadata()?.len());
    Ok((file, blocks))
}

/// Opens a file or makes it, and gives it the length of this many blocks.
fn make_file<R: Files<File = File>>(rt: &R, path: &str, blocks: u32) -> io::Result<File> {
    let file = OpenOptions::new()
        .read(true)
        .write(true)
        .create(true)
        .open(rt, path)?;
    file.set_len(bytes_of(blocks))?;
    Ok(file)
}
