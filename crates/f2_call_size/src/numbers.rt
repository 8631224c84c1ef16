//! Sets of numbers.
ghost use Rattle.std.specs.Prelude.{◌≡◌, ◌<◌, ◌^◌, OnOk};
ghost use Rattle.std.specs.FinSet as set;

use std::alloc::{AllocError, Global};
use std::collections::BTreeSet;
use std::marker::Model;

/// A set of numbers, counted.
#[derive(Debug, Drop)]
pub(crate) struct Numbers {
    numbers: BTreeSet<u32>,
}

impl Model for Numbers {
    ghost use Rattle.std.specs.Ordering.{nat_cmp};
    ghost use Rattle.std.specs.FinSet as set;
    ghost use Rattle.std.specs.Coded.{coded_ℕ};

    ghost Value = { set.FinSet nat_cmp };

    ghost coded = { set.code coded_ℕ };

    ghost view = { λ s. set.from_list s.numbers.keys };
}

impl Numbers {
    /// No number, which takes no memory.
    pub(crate) fn new(alloc: Global) -> Numbers
        ensures { result ≡ set.empty }
    {
        Numbers {
            numbers: BTreeSet::new(alloc),
        }
    }

    /// Puts a number in. Where memory is refused the set may be given up.
    pub(crate) fn insert(&mut self, number: u32) -> Result<(), AllocError>
        ensures { OnOk result (self.new ≡ set.insert self.old number) }
    {
        self.numbers.insert(number)?;
        Ok(())
    }

    /// How many there are.
    pub(crate) fn len(&self) -> u64
        ensures len { result ≡ set.len self.now }
        ensures fits { result < 2 ^ 63 }
    {
        self.numbers.len() as u64
    }
}
