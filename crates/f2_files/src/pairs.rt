//! Pages and direct nodes of files.
ghost use Rattle.std.specs.Prelude.{◌≡◌, ◌==◌, ◌++◌, ◌∷◌, [], not, nat_lt, None, IfNone, IfSome, OnOk, OnErr, IfOk};
ghost use Rattle.std.specs.List.{filter_map, find, list_any};
ghost use Rattle.std.specs.FinMap as map;
ghost use Rattle.std.specs.FinSet as set;
ghost use Rattle.f2_model.specs.Fallback.{frozen_ino, pairs_of};
ghost use Rattle.f2_model.specs.Rising.{rising};
ghost use Rattle.f2_model.specs.State.{with_pairs, without_pairs, without_ino};
ghost use Rattle.f2_model.specs.Step as machine;

use f2_flights::Flights;
use std::alloc::{AllocError, Global};
use std::collections::BTreeSet;
use std::marker::Model;

/// Whether a call in flight keeps a file from changing.
fn is_frozen(flights: &Flights, ino: u32) -> bool
    ensures { result ≡ list_any (λ one. one == ino) (filter_map frozen_ino (map.values flights.now)) }
{
    flights.freezing(ino).is_some()
}

/// A set of pairs of an ino and the number of a page, or the offset of a direct node, in that file.
#[derive(Debug, Drop)]
pub(crate) struct Pairs {
    pairs: BTreeSet<(u32, u32)>,
}

impl Model for Pairs {
    ghost use Rattle.std.specs.Coded.{coded_ℕ, coded×};
    ghost use Rattle.std.specs.FinSet as set;
    ghost use Rattle.f2_model.specs.State.{pair_cmp};

    ghost Value = { set.FinSet pair_cmp };

    ghost coded = { set.code (coded× coded_ℕ coded_ℕ) };

    ghost view = { λ s. set.from_list s.pairs.keys };
}

impl Pairs {
    /// No pair, which takes no memory.
    pub(crate) fn new(alloc: Global) -> Pairs
        ensures { result ≡ set.empty }
    {
        Pairs {
            pairs: BTreeSet::new(alloc),
        }
    }

    /// Whether a number of a file is in the set.
    pub(crate) fn contains(&self, ino: u32, number: u32) -> bool
        ensures { result ≡ set.contains self.now (ino, number) }
    {
        self.pairs.contains(&(ino, number))
    }

    /// Puts a number of a file into the set. Where memory is refused the set stays as it was.
    pub(crate) fn insert(&mut self, ino: u32, number: u32) -> Result<(), AllocError>
        ensures ok { OnOk result (self.new ≡ set.insert self.old (ino, number)) }
        ensures err { OnErr result (self.new ≡ self.old) }
    {
        self.pairs.insert((ino, number))?;
        Ok(())
    }

    /// Takes a number of a file out.
    pub(crate) fn remove(&mut self, ino: u32, number: u32)
        ensures { self.new ≡ set.remove self.old (ino, number) }
    {
        self.pairs.remove(&(ino, number));
    }

    /// Takes numbers of a file out.
    pub(crate) fn remove_all(&mut self, ino: u32, numbers: &[u32])
        ensures { self.new ≡ without_pairs ino self.old numbers.now }
    {
        for number in numbers {
            self.remove(ino, *number);
        }
    }

    /// Takes all pairs out.
    pub(crate) fn clear(&mut self)
        ensures { self.new ≡ set.empty }
    {
        self.pairs.clear();
    }

    /// The least pair of a file with this ino or a greater one.
    pub(crate) fn first_from(&self, ino: u32) -> Option<(u32, u32)>
        ensures { result ≡ find (λ pair. not (nat_lt pair.0 ino)) (rising self.now) }
    {
        self.pairs.range((ino, 0)..).next().copied()
    }

    /// The least number of a file in the set.
    pub(crate) fn least_of(&self, ino: u32) -> Option<u32>
        ensures { result ≡ machine.least_of self.now ino }
    {
        let pair = self.first_from(ino)?;
        if pair.0 == ino { Some(pair.1) } else { None }
    }

    /// How many numbers of a file are in the set. It costs what it counts.
    pub(crate) fn count_of(&self, ino: u32) -> usize
        ensures { result ≡ pairs_of ino self.now }
    {
        self.pairs
            .range((ino, 0)..)
            .take_while(|pair| pair.0 == ino)
            .count()
    }

    /// Whether there is no pair.
    pub(crate) fn is_empty(&self) -> bool
        ensures { result ≡ (set.len self.now == 0) }
    {
        self.pairs.is_empty()
    }

    /// The greatest ino that has a number in the set.
    fn last_ino(&self) -> Option<u32>
        ensures none { IfNone result (rising self.now ≡ []) }
        ensures last { IfSome result (λ ino. find (λ pair. nat_lt ino pair.0) (rising self.now) ≡ None) }
    {
        let pair = self.pairs.iter().next_back()?;
        Some(pair.0)
    }

    /// The least pair of a file that no call in flight keeps from changing. A file that one keeps costs one step, however
    /// many numbers of it are in the set.
    pub(crate) fn first_thawed(&self, flights: &Flights) -> Option<(u32, u32)>
        ensures { result ≡ find (λ pair. not (list_any (λ ino. ino == pair.0) (filter_map frozen_ino (map.values flights.now)))) (rising self.now) }
    {
        let last = self.last_ino()?;
        let mut from = 0;
        while let Some(pair) = self.first_from(from) {
            if !is_frozen(flights, pair.0) {
                return Some(pair);
            }
            if pair.0 >= last {
                return None;
            }
            from = pair.0 + 1;
        }
        None
    }

    /// Takes all numbers of a file out.
    pub(crate) fn remove_ino(&mut self, ino: u32)
        ensures { self.new ≡ without_ino ino self.old }
    {
        while let Some(number) = self.least_of(ino) {
            self.remove(ino, number);
        }
    }

    /// Puts a number of a file that isn't in the set into it, and appends it to those that were added. Where memory is
    /// refused nothing changes.
    fn add(&mut self, added: &mut Vec<u32>, ino: u32, number: u32) -> Result<(), AllocError>
        ensures set { OnOk result (self.new ≡ set.insert self.old (ino, number)) }
        ensures added { OnOk result (added.new.items ≡ added.old.items ++ number ∷ []) }
        ensures err_set { OnErr result (self.new ≡ self.old) }
        ensures err_added { OnErr result (added.new.items ≡ added.old.items) }
    {
        added.push(number)?;
        match self.insert(ino, number) {
            Ok(()) => Ok(()),
            Err(error) => {
                added.pop();
                Err(error)
            }
        }
    }

    /// Puts numbers of a file into the set, and appends to an empty list those that weren't there. Where memory is
    /// refused some of them are in.
    fn add_each(
        &mut self,
        added: &mut Vec<u32>,
        ino: u32,
        numbers: &[u32],
    ) -> Result<(), AllocError>
        requires { added.old.items ≡ [] }
        ensures all { OnOk result (self.new ≡ with_pairs ino self.old numbers.now) }
        ensures undo { without_pairs ino self.new added.new.items ≡ self.old }
    {
        for number in numbers {
            if !self.contains(ino, *number) {
                self.add(added, ino, *number)?;
            }
        }
        Ok(())
    }

    /// Puts numbers of a file into the set, and answers those that weren't there: without them it is as before. Where
    /// memory is refused nothing changes.
    pub(crate) fn add_all(
        &mut self,
        alloc: Global,
        ino: u32,
        numbers: &[u32],
    ) -> Result<Vec<u32>, AllocError>
        ensures all { OnOk result (self.new ≡ with_pairs ino self.old numbers.now) }
        ensures undo { IfOk result (λ added. without_pairs ino self.new added.items ≡ self.old) }
        ensures err { OnErr result (self.new ≡ self.old) }
    {
        let mut added = Vec::new(alloc);
        match self.add_each(&mut added, ino, numbers) {
            Ok(()) => Ok(added),
            Err(error) => {
                self.remove_all(ino, added.as_slice());
                Err(error)
            }
        }
    }
}
