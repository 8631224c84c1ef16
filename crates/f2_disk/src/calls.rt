ghost use Rattle.std.specs.Prelude.{◌≡◌, IfOk, is_err};
ghost use Rattle.f2_disk.specs.Calls.{is_named, after_call};
ghost use Rattle.f2_disk.specs.Faults.{HasCause};

use crate::Failed;
use std::alloc::{AllocError, Global};
use std::marker::Model;

/// The calls of a stream in memory: how many were made, which are to fail, and how many did.
#[derive(Debug, Drop)]
pub(crate) struct Calls {
    made: u64,
    fails: Vec<u32>,
    faults: u64,
}

impl Model for Calls {
    ghost use Rattle.f2_disk.specs.Calls.{Calls as Made};

    ghost Value = { Made };

    ghost view = { λ c. record { made = c.made; fails = c.fails.items; faults = c.faults } };
}

impl Calls {
    /// No call yet. Those with these numbers are to fail, counted from 1.
    pub(crate) fn new(alloc: Global, fails: &[u32]) -> Result<Self, AllocError>
        ensures { IfOk result (λ calls. calls ≡ record { made = 0; fails = fails.now; faults = 0 }) }
    {
        Ok(Calls {
            made: 0,
            fails: Vec::from_slice(alloc, fails)?,
            faults: 0,
        })
    }

    /// Whether the next call is to fail.
    pub(crate) fn is_named(&self) -> bool
        ensures { result ≡ is_named self.now }
    {
        let number = self.made.saturating_add(1);
        self.fails.iter().any(|call| u64::from(*call) == number)
    }

    /// Counts a call, which failed or not.
    pub(crate) fn count(&mut self, failed: bool) -> Result<(), Failed>
        ensures fails { is_err result ≡ failed }
        ensures after { self.new ≡ after_call failed self.old }
        ensures cause { HasCause self.old.faults self.new.faults result }
    {
        self.made = self.made.saturating_add(1);
        if failed {
            self.faults = self.faults.saturating_add(1);
            return Err(Failed);
        }
        Ok(())
    }
}
