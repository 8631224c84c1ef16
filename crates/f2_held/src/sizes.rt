//! The numbers of files, with their sum.
ghost use Rattle.std.specs.Prelude.{◌≡◌, ◌≤◌, ◌+◌, ◌-◌, OnOk, OnErr, None};
ghost use Rattle.std.specs.FinMap as map;
ghost use Rattle.f2_held.specs.Taken.{size_of, raised, with_size, forgotten, of_files};
ghost use Rattle.f2_held.specs.Sums.{IsSmall, IsSmallSum, in_place};

use crate::both::{Both, NOTHING};
use std::alloc::{AllocError, Global};
use std::collections::BTreeMap;
use std::marker::Model;

/// The greatest numbers of each file, and the sum of them.
#[derive(Debug, Drop)]
pub struct Sizes {
    sizes: BTreeMap<u32, Both>,
    sum: Both,
}

impl Model for Sizes {
    ghost use Rattle.std.specs.FinMap as map;
    ghost use Rattle.std.specs.Ordering.{nat_cmp};
    ghost use Rattle.std.specs.Coded.{coded_ℕ};
    ghost use Rattle.f2_model.specs.Fallback.{Both as Numbers};
    ghost use Rattle.f2_held.specs.Sums.{IsSizes, both_code};

    ghost Value = { map.FinMap nat_cmp Numbers };

    ghost coded = { map.code coded_ℕ both_code };

    ghost view = { λ s. map.from_entries s.sizes.entries };

    ghost invariant = { λ s. IsSizes (map.from_entries s.sizes.entries) s.sum };
}

impl Sizes {
    /// No file, which takes no memory.
    pub fn new(alloc: Global) -> Sizes
        ensures { result ≡ map.empty }
    {
        Sizes {
            sizes: BTreeMap::new(alloc),
            sum: NOTHING,
        }
    }

    /// Makes a file's numbers the greater ones, each by itself. Where memory is refused nothing changes.
    pub fn raise(&mut self, ino: u32, size: Both) -> Result<(), AllocError>
        requires { IsSmall size }
        ensures ok { OnOk result (self.new ≡ raised self.old ino size) }
        ensures err { OnErr result (self.new ≡ self.old) }
    {
        let stood = self.stood(ino);
        let raised = stood.greater(size);
        self.sizes.insert(ino, raised)?;
        self.sum = exchanged(self.sum, stood, raised);
        Ok(())
    }

    /// Makes a file's numbers exactly these. Where memory is refused, which is only where the file isn't in,
    /// nothing changes.
    pub fn set(&mut self, ino: u32, size: Both) -> Result<(), AllocError>
        requires { IsSmall size }
        ensures ok { OnOk result (self.new ≡ with_size self.old ino size) }
        ensures err { OnErr result (self.new ≡ self.old) }
        ensures absent { OnErr result (map.get self.old ino ≡ None) }
    {
        let stood = self.stood(ino);
        self.sizes.insert(ino, size)?;
        self.sum = exchanged(self.sum, stood, size);
        Ok(())
    }

    /// Takes a file out, where it is in.
    pub fn forget(&mut self, ino: u32)
        ensures { self.new ≡ forgotten self.old ino }
    {
        let stood = self.sizes.remove(&ino).unwrap_or(NOTHING);
        self.sum = exchanged(self.sum, stood, NOTHING);
    }

    /// The sum, were a file's numbers raised so.
    pub fn sum_with(&self, ino: u32, size: Both) -> Both
        requires { IsSmall size }
        ensures sum { result ≡ of_files (raised self.now ino size) }
        ensures small { IsSmallSum result }
    {
        let stood = self.stood(ino);
        exchanged(self.sum, stood, stood.greater(size))
    }

    /// A file's numbers, and nothing where it isn't in.
    fn stood(&self, ino: u32) -> Both
        ensures stood { result ≡ size_of self.now ino }
        ensures small { IsSmall result }
    {
        self.sizes.get(&ino).copied().unwrap_or(NOTHING)
    }
}

/// A sum in which one number stands in the place of another.
pub fn exchanged(sum: Both, old: Both, new: Both) -> Both
    requires nodes { old.nodes ≤ sum.nodes }
    requires pages { old.pages ≤ sum.pages }
    requires sum { IsSmallSum sum }
    requires new { IsSmall new }
    ensures { result ≡ in_place sum old new }
{
    Both {
        nodes: sum.nodes - old.nodes + new.nodes,
        pages: sum.pages - old.pages + new.pages,
    }
}
