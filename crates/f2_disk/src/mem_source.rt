ghost use Rattle.std.specs.Prelude.{◌≡◌, ◌-◌, ◌<◌, min, Some, IfOk, IfErr, OnErr, is_err, take, drop, length, false, true};
ghost use Rattle.std.specs.Io.{ReadsAtMost};
ghost use Rattle.std.specs.Io.KnownBytes.{ReadConsumes};
ghost use Rattle.f2_disk.specs.Calls.{SourceState, is_named, after_call};
ghost use Rattle.f2_disk.specs.Faults.{HasCause};

use crate::calls::Calls;
use crate::{Failed, Source, SureSource};
use std::alloc::{AllocError, Global};
use std::marker::Model;

/// A source of bytes in memory, which fails at the calls that it was told.
#[derive(Debug, Drop)]
pub struct MemSource {
    bytes: SureSource,
    calls: Calls,
}

impl Model for MemSource {
    ghost Value = { SourceState };

    ghost view = { λ s. record { left = s.bytes; calls = s.calls } };
}

impl MemSource {
    /// A source of these bytes. Its reads with the numbers in `fails` fail, counted from 1.
    pub fn new(alloc: Global, bytes: &[u8], fails: &[u32]) -> Result<Self, AllocError>
        ensures { IfOk result (λ source. source ≡ record {
          left = bytes.now;
          calls = record { made = 0; fails = fails.now; faults = 0 };
        }) }
    {
        Ok(MemSource {
            bytes: SureSource::new(alloc, bytes)?,
            calls: Calls::new(alloc, fails)?,
        })
    }
}

impl Source for MemSource {
    ghost remaining = { λ s. Some s.left };

    ghost faults = { λ s. s.calls.faults };

    /// Gives as many bytes as there are, or as `into` has room for.
    fn read(&mut self, into: &mut [u8]) -> Result<usize, Failed>
        ensures bound { ReadsAtMost result into.new }
        ensures bytes { ReadConsumes (Some self.old.left) (Some self.new.left) result into.new }
        ensures cause { HasCause self.old.calls.faults self.new.calls.faults result }

        ensures fails { is_err result ≡ is_named self.old.calls }
        ensures calls { self.new.calls ≡ after_call (is_named self.old.calls) self.old.calls }
        ensures count { IfOk result (λ n. n ≡ min (length self.old.left) (length into.old)) }
    {
        let named = self.calls.is_named();
        self.calls.count(named)?;
        Ok(self.bytes.take(into))
    }
}
