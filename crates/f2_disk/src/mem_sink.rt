ghost use Rattle.std.specs.Prelude.{◌≡◌, ◌-◌, ◌≤◌, ◌==◌, ◌||◌, min, [], ◌++◌, Some, IfOk, OnErr, is_err, take, length, vec_capacity};
ghost use Rattle.f2_disk.specs.Calls.{SinkState, is_named, after_call};
ghost use Rattle.f2_disk.specs.Faults.{HasCause};
ghost use Rattle.f2_disk.specs.Streams.{SinkAppends, TakesSome};

use crate::calls::Calls;
use crate::{Failed, Sink};
use std::alloc::{AllocError, Global};
use std::marker::Model;

/// A sink in memory. It fails at the calls that it was told, and where its room is used up.
#[derive(Debug, Drop)]
pub struct MemSink {
    bytes: Vec<u8>,
    room: usize,
    calls: Calls,
}

impl Model for MemSink {
    ghost Value = { SinkState };

    ghost view = { λ s. record { bytes = s.bytes.items; room = s.room; calls = s.calls } };

    ghost invariant = { λ s. (length s.bytes.items ≤ s.room) × (s.room ≤ vec_capacity s.bytes) };
}

impl MemSink {
    /// An empty sink with room for this many bytes, taken here. Its writes with the numbers in `fails` fail,
    /// counted from 1.
    pub fn new(alloc: Global, room: usize, fails: &[u32]) -> Result<Self, AllocError>
        ensures { IfOk result (λ sink. sink ≡ record {
          bytes = [];
          room = room;
          calls = record { made = 0; fails = fails.now; faults = 0 };
        }) }
    {
        Ok(MemSink {
            bytes: Vec::with_capacity(alloc, room)?,
            room,
            calls: Calls::new(alloc, fails)?,
        })
    }

    /// What was written.
    pub fn bytes(&self) -> &[u8]
        ensures { result.now ≡ self.now.bytes }
    {
        self.bytes.as_slice()
    }
}

impl Sink for MemSink {
    ghost written = { λ s. Some s.bytes };

    ghost faults = { λ s. s.calls.faults };

    /// Takes as many bytes as there is room for. A write that fails takes none.
    fn write(&mut self, piece: &[u8]) -> Result<usize, Failed>
        ensures bound { TakesSome result piece.now }
        ensures bytes { SinkAppends (Some self.old.bytes) (Some self.new.bytes) result piece.now }
        ensures cause { HasCause self.old.calls.faults self.new.calls.faults result }

        ensures fails { is_err result ≡ (is_named self.old.calls || length self.old.bytes == self.old.room) }
        ensures calls { self.new.calls ≡ after_call (is_err result) self.old.calls }
        ensures room { self.new.room ≡ self.old.room }
        ensures count { IfOk result (λ n. n ≡ min (length piece.now) (self.old.room - length self.old.bytes)) }
        ensures none { OnErr result (self.new.bytes ≡ self.old.bytes) }
    {
        let left = self.room - self.bytes.len();
        let failed = self.calls.is_named() || left == 0;
        self.calls.count(failed)?;
        let count = piece.len().min(left);
        if self.bytes.extend_from_slice(&piece[..count]).is_err() {
            unreachable!()
        }
        Ok(count)
    }
}
