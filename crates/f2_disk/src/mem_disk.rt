ghost use Rattle.std.specs.Prelude.{◌≡◌, ℕ, ◌-◌, ◌^◌, ◌<◌, List, IfOk, Some, All, length, false, replicate};
ghost use Rattle.f2_disk.specs.Contents.{IsBlock, alone, zeros};

use crate::disk::blank_block;
use crate::{Block, Disk, DiskFault};
use std::alloc::{AllocError, Global};
use std::marker::Model;

/// A disk in memory that never fails. Each write is as good as flushed.
#[derive(Drop)]
pub struct MemDisk {
    blocks: Vec<Block>,
}

impl Model for MemDisk {
    ghost Value = { List (List ℕ) };

    ghost view = { λ d. d.blocks.items };

    ghost invariant = { λ d. (length d.blocks.items < 2 ^ 32) × All IsBlock d.blocks.items };
}

impl MemDisk {
    /// A disk of this many blocks of zeros, all of whose memory is taken here.
    pub fn new(alloc: Global, blocks: u32) -> Result<Self, AllocError>
        ensures { IfOk result (λ disk. disk ≡ replicate blocks zeros) }
    {
        let mut all = Vec::with_capacity(alloc, blocks as usize)?;
        for _ in 0..blocks {
            all.push(blank_block())?;
        }
        Ok(MemDisk { blocks: all })
    }
}

impl Disk for MemDisk {
    ghost contents = { λ d. Some (alone d) };

    ghost meter = { λ d. record {
      blocks = length d;
      faults = 0;
      left = 0;
      stopped = false;
      spare = 2 ^ 64 - 1;
    } };

    fn blocks(&self) -> u32 {
        self.blocks.len() as u32
    }

    fn faults(&self) -> u64 {
        0
    }

    fn read(&mut self, at: u32, into: &mut Block) -> Result<(), DiskFault> {
        *into = self.blocks[at as usize];
        Ok(())
    }

    fn write(&mut self, at: u32, from: &Block) -> Result<(), DiskFault> {
        self.blocks[at as usize] = *from;
        Ok(())
    }

    fn flush(&mut self) -> Result<(), DiskFault> {
        Ok(())
    }
}
