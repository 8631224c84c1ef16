//! Sets of inos.
ghost use Rattle.std.specs.Prelude.{◌≡◌, OnOk, OnErr, IfOk};
ghost use Rattle.std.specs.FinSet as set;
ghost use Rattle.f2_model.specs.Rising.{rising};

use std::alloc::{AllocError, Global};
use std::collections::BTreeSet;
use std::marker::Model;

/// A set of inos.
#[derive(Debug, Drop)]
pub struct Inos {
    inos: BTreeSet<u32>,
}

impl Model for Inos {
    ghost use Rattle.std.specs.Ordering.{nat_cmp};
    ghost use Rattle.std.specs.FinSet as set;
    ghost use Rattle.std.specs.Coded.{coded_ℕ};

    ghost Value = { set.FinSet nat_cmp };

    ghost coded = { set.code coded_ℕ };

    ghost view = { λ s. set.from_list s.inos.keys };
}

impl Inos {
    /// No ino, which takes no memory.
    pub fn new(alloc: Global) -> Inos
        ensures { result ≡ set.empty }
    {
        Inos {
            inos: BTreeSet::new(alloc),
        }
    }

    /// The set of some inos.
    pub fn of(alloc: Global, numbers: &[u32]) -> Result<Inos, AllocError>
        ensures { IfOk result (λ inos. inos ≡ set.from_list numbers.now) }
    {
        let mut inos = Inos::new(alloc);
        for number in numbers {
            inos.insert(*number)?;
        }
        Ok(inos)
    }

    /// The inos, rising.
    pub fn numbers(&self, alloc: Global) -> Result<Vec<u32>, AllocError>
        ensures { IfOk result (λ numbers. numbers.items ≡ rising self.now) }
    {
        self.inos.iter().copied().collect(alloc)
    }

    /// An equal set.
    pub fn copy(&self) -> Result<Inos, AllocError>
        ensures { IfOk result (λ inos. inos ≡ self.now) }
    {
        let inos = self.inos.clone()?;
        Ok(Inos { inos })
    }

    /// Whether an ino is in the set.
    pub fn contains(&self, ino: u32) -> bool
        ensures { result ≡ set.contains self.now ino }
    {
        self.inos.contains(&ino)
    }

    /// Puts an ino into the set. Where memory is refused the set stays as it was.
    pub fn insert(&mut self, ino: u32) -> Result<(), AllocError>
        ensures ok { OnOk result (self.new ≡ set.insert self.old ino) }
        ensures err { OnErr result (self.new ≡ self.old) }
    {
        self.inos.insert(ino)?;
        Ok(())
    }

    /// Takes all inos out.
    pub fn clear(&mut self)
        ensures { self.new ≡ set.empty }
    {
        self.inos.clear();
    }
}
