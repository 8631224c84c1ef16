//! Pages and direct nodes of files.
ghost use Rattle.std.specs.Prelude.{◌≡◌, ◌==◌, not, OnOk, OnErr, IfOk};
ghost use Rattle.std.specs.List.{find, list_any};
ghost use Rattle.std.specs.FinSet as set;
ghost use Rattle.f2_model.specs.Fallback.{pairs_of};
ghost use Rattle.f2_model.specs.Rising.{rising};
ghost use Rattle.f2_model.specs.State.{with_pairs, without_pairs, without_ino};
ghost use Rattle.f2_model.specs.Step as machine;

use std::alloc::{AllocError, Global};
use std::collections::BTreeSet;
use std::marker::Model;

/// A set of pairs of an ino and the number of a page, or the offset of a direct node, in that file.
#[derive(Debug, Drop)]
pub struct Pairs {
    pairs: BTreeSet<(u32, u32)>,
}

impl Model for Pairs {
    ghost use Rattle.std.specs.Coded.{coded_ℕ, coded×};
    ghost use Rattle.std.specs.FinSet as set;
    ghost use Rattle.f2_model.specs.State.{pair_cmp};

    ghost Value = { set.FinSet pair_cmp };

    ghost coded = { set.code (coded× coded_ℕ coded_ℕ) };

    ghost view = { λ s. set.from_list s.pairs.keys };
}

impl Pairs {
    /// No pair, which takes no memory.
    pub fn new(alloc: Global) -> Pairs
        ensures { result ≡ set.empty }
    {
        Pairs {
            pairs: BTreeSet::new(alloc),
        }
    }

    /// An equal set.
    pub fn copy(&self) -> Result<Pairs, AllocError>
        ensures { IfOk result (λ pairs. pairs ≡ self.now) }
    {
        let pairs = self.pairs.clone()?;
        Ok(Pairs { pairs })
    }

    /// Whether there is no pair.
    pub fn is_empty(&self) -> bool
        ensures { result ≡ (set.len self.now == 0) }
    {
        self.pairs.is_empty()
    }

    /// Puts a number of a file into the set. Where memory is refused the set stays as it was.
    pub fn insert(&mut self, ino: u32, number: u32) -> Result<(), AllocError>
        ensures ok { OnOk result (self.new ≡ set.insert self.old (ino, number)) }
        ensures err { OnErr result (self.new ≡ self.old) }
    {
        self.pairs.insert((ino, number))?;
        Ok(())
    }

    /// Puts numbers of a file into the set. Where memory is refused some of them are in.
    pub fn insert_all(&mut self, ino: u32, numbers: &[u32]) -> Result<(), AllocError>
        ensures { OnOk result (self.new ≡ with_pairs ino self.old numbers.now) }
    {
        for number in numbers {
            self.insert(ino, *number)?;
        }
        Ok(())
    }

    /// Takes a number of a file out.
    pub fn remove(&mut self, ino: u32, number: u32)
        ensures { self.new ≡ set.remove self.old (ino, number) }
    {
        self.pairs.remove(&(ino, number));
    }

    /// Takes numbers of a file out.
    pub fn remove_all(&mut self, ino: u32, numbers: &[u32])
        ensures { self.new ≡ without_pairs ino self.old numbers.now }
    {
        for number in numbers {
            self.remove(ino, *number);
        }
    }

    /// Takes all numbers of a file out.
    pub fn remove_ino(&mut self, ino: u32)
        ensures { self.new ≡ without_ino ino self.old }
    {
        self.pairs.retain(|pair| pair.0 != ino);
    }

    /// Takes all pairs out.
    pub fn clear(&mut self)
        ensures { self.new ≡ set.empty }
    {
        self.pairs.clear();
    }

    /// How many numbers of a file are in the set.
    pub fn count_of(&self, ino: u32) -> usize
        ensures { result ≡ pairs_of ino self.now }
    {
        self.pairs.iter().filter(|pair| pair.0 == ino).count()
    }

    /// The least number of a file in the set.
    pub fn least_of(&self, ino: u32) -> Option<u32>
        ensures { result ≡ machine.least_of self.now ino }
    {
        let found = self.pairs.iter().find(|pair| pair.0 == ino)?;
        Some(found.1)
    }

    /// The least pair of a file that isn't among some.
    pub fn least_outside(&self, inos: &[u32]) -> Option<(u32, u32)>
        ensures { result ≡ find (λ pair. not (list_any (λ ino. ino == pair.0) inos.now)) (rising self.now) }
    {
        self.pairs
            .iter()
            .find(|pair| !inos.contains(&pair.0))
            .copied()
    }
}
