ghost use Rattle.std.specs.Prelude.{◌≡◌, ℕ, ◌≤◌, min, List, ◌++◌, Some, IfOk, take, drop, length};

use crate::{Failed, Source};
use std::alloc::{AllocError, Global};
use std::marker::Model;

/// A source of bytes in memory, which never fails.
#[derive(Debug, Drop)]
pub struct SureSource {
    bytes: Vec<u8>,
    place: usize,
}

impl Model for SureSource {
    ghost Value = { List ℕ };

    ghost view = { λ s. drop s.place s.bytes.items };

    ghost invariant = { λ s. s.place ≤ length s.bytes.items };
}

impl SureSource {
    /// A source of these bytes.
    pub fn new(alloc: Global, bytes: &[u8]) -> Result<Self, AllocError>
        ensures { IfOk result (λ source. source ≡ bytes.now) }
    {
        Ok(SureSource {
            bytes: Vec::from_slice(alloc, bytes)?,
            place: 0,
        })
    }

    /// Moves as many bytes as there are, or as `into` has room for, to its front.
    pub(crate) fn take(&mut self, into: &mut [u8]) -> usize
        ensures count { result ≡ min (length self.old) (length into.old) }
        ensures moved { into.new ≡ take result self.old ++ drop result into.old }
        ensures left { self.new ≡ drop result self.old }
    {
        let rest = &self.bytes[self.place..];
        let count = rest.len().min(into.len());
        into[..count].copy_from_slice(&rest[..count]);
        self.place += count;
        count
    }
}

impl Source for SureSource {
    ghost remaining = { λ s. Some s };

    ghost faults = { λ _. 0 };

    fn read(&mut self, into: &mut [u8]) -> Result<usize, Failed> {
        Ok(self.take(into))
    }
}
