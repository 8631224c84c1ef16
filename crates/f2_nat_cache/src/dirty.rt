//! The dirty entries, and how many of each block there are.

ghost use Rattle.std.specs.Prelude.{◌≡◌, ℕ, ◌+◌, ◌-◌, ◌*◌, ◌^◌, ◌<◌, ◌≤◌, max, length, IfOk, OnOk, OnErr};
ghost use Rattle.std.specs.FinMap as map;
ghost use Rattle.std.specs.HashMap.{spare as places_of};
ghost use Rattle.f2_format.specs.Geometry.{ENTRIES_A_NAT_BLOCK};
ghost use Rattle.f2_nat_cache.specs.Entries.{AreCounts, count_in, entries_from};

use f2_nat_block::{NatEntry, locate};
use std::alloc::{AllocError, Global};
use std::collections::HashMap;
use std::marker::Model;

/// The dirty entries of a table.
#[derive(Drop)]
pub(crate) struct DirtyEntries {
    entries: HashMap<u32, NatEntry>,
    // How many entries of each block are dirty.
    counts: Vec<u32>,
    spare: u32,
}

impl Model for DirtyEntries {
    ghost use Rattle.std.specs.Prelude.{length};
    ghost use Rattle.std.specs.HashMap.{spare as places_of};
    ghost use Rattle.f2_nat_cache.specs.Entries.{DirtyTable, dirty_code, IsDirtyTable, entries_from};

    ghost Value = { DirtyTable };

    ghost coded = { dirty_code };

    ghost view = { λ d. record { nat = length d.counts.items; entries = entries_from d.entries.entries; spare = d.spare } };

    ghost invariant = { λ d. IsDirtyTable (entries_from d.entries.entries) d.counts.items d.spare (places_of d.entries) };
}

impl DirtyEntries {
    /// No dirty entry of a table of `nat` blocks.
    pub(crate) fn new(alloc: Global, nat: u32) -> Result<Self, AllocError>
        ensures { IfOk result (λ dirty. dirty ≡ record { nat = nat; entries = map.empty; spare = 0 }) }
    {
        Ok(DirtyEntries {
            entries: HashMap::new(alloc),
            counts: vec![in alloc; 0; nat as usize]?,
            spare: 0,
        })
    }

    /// The dirty entry of a nid.
    pub(crate) fn get(&self, nid: u32) -> Option<NatEntry>
        ensures { result ≡ map.get self.now.entries nid }
    {
        self.entries.get(&nid).copied()
    }

    /// How many entries are dirty.
    pub(crate) fn len(&self) -> usize
        ensures len { result ≡ map.len self.now.entries }
        ensures small { result < 2 ^ 63 }
    {
        self.entries.len()
    }

    /// How many entries of a block are dirty.
    pub(crate) fn count(&self, block: u32) -> u32
        requires { block < self.now.nat }
        ensures { result ≡ count_in self.now.entries block }
    {
        self.counts[block as usize]
    }

    /// Takes memory ahead, so that at least `n` entries can become dirty without any.
    pub(crate) fn room(&mut self, n: u32) -> Result<(), AllocError>
        ensures ok { OnOk result (self.new ≡ record self.old { spare = max self.old.spare n }) }
        ensures err { OnErr result (self.new ≡ self.old) }
    {
        self.entries.reserve(n as usize)?;
        self.spare = self.spare.max(n);
        Ok(())
    }

    /// Makes an entry dirty. An error leaves all as it was.
    pub(crate) fn put(&mut self, nid: u32, e: NatEntry) -> Result<(), AllocError>
        requires { nid < ENTRIES_A_NAT_BLOCK * self.old.nat }
        ensures ok { OnOk result (self.new ≡ record self.old { entries = map.insert self.old.entries nid e }) }
        ensures err { OnErr result (self.new ≡ self.old) }
    {
        self.entries.reserve(self.spare as usize + 1)?;
        insert(&mut self.entries, &mut self.counts, nid, e);
        Ok(())
    }

    /// Makes an entry dirty with memory that [`DirtyEntries::room`] took.
    pub(crate) fn put_ready(&mut self, nid: u32, e: NatEntry)
        requires nid { nid < ENTRIES_A_NAT_BLOCK * self.old.nat }
        requires ready { 0 < self.old.spare }
        ensures { self.new ≡ record self.old { entries = map.insert self.old.entries nid e; spare = self.old.spare - 1 } }
    {
        insert(&mut self.entries, &mut self.counts, nid, e);
        self.spare -= 1;
    }

    /// Makes no entry dirty any more. The memory that [`DirtyEntries::room`] took stays.
    pub(crate) fn clear(&mut self)
        ensures { self.new ≡ record self.old { entries = map.empty } }
    {
        self.entries.clear();
        self.counts.as_mut_slice().fill(0);
    }
}

/// Puts an entry, for which there is a place, and counts it where it is new.
fn insert(entries: &mut HashMap<u32, NatEntry>, counts: &mut Vec<u32>, nid: u32, e: NatEntry)
    requires place { 0 < places_of entries.old }
    requires nid { nid < ENTRIES_A_NAT_BLOCK * length counts.old.items }
    requires counts { AreCounts (entries_from entries.old.entries) counts.old.items }

    ensures entries { entries_from entries.new.entries ≡ map.insert (entries_from entries.old.entries) nid e }
    ensures counts { AreCounts (entries_from entries.new.entries) counts.new.items }
    ensures blocks { length counts.new.items ≡ length counts.old.items }
    ensures places { places_of entries.old ≤ places_of entries.new + 1 }
{
    match entries.insert(nid, e) {
        Ok(Some(_)) => {}
        Ok(None) => counts[locate(nid).0 as usize] += 1,
        Err(_) => unreachable!(),
    }
}
