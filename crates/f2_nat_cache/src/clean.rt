//! The clean entries, of which the one that was used longest ago goes first.

ghost use Rattle.std.specs.Prelude.{◌≡◌, ◌≤◌, None, Some, IsNone, IfOk, OnOk, OnErr};
ghost use Rattle.std.specs.FinMap as map;
ghost use Rattle.f2_nat_cache.specs.Entries.{MayAdd};

use f2_nat_block::NatEntry;
use lru::LruCache;
use std::alloc::{AllocError, Global};
use std::marker::Model;
use std::num::NonZeroUsize;

/// Entries that were read from the disk.
#[derive(Drop)]
pub(crate) struct CleanEntries {
    cache: LruCache<u32, NatEntry>,
}

impl Model for CleanEntries {
    ghost use Rattle.f2_nat_cache.specs.Entries.{CleanTable, clean_code, IsBounded, entries_from};

    ghost Value = { CleanTable };

    ghost coded = { clean_code };

    ghost view = { λ c. record { entries = entries_from c.cache.entries; room = c.cache.cap } };

    ghost invariant = { λ c. IsBounded (record { entries = entries_from c.cache.entries; room = c.cache.cap }) };
}

impl CleanEntries {
    /// No entry, and room for `room`.
    pub(crate) fn new(alloc: Global, room: usize) -> Result<Self, AllocError>
        requires { 1 ≤ room }
        ensures { IfOk result (λ clean. clean ≡ record { entries = map.empty; room = room }) }
    {
        let room = NonZeroUsize::new(room).unwrap();
        Ok(CleanEntries {
            cache: LruCache::new(alloc, room)?,
        })
    }

    /// The clean entry of a nid, which counts as used.
    pub(crate) fn get(&mut self, nid: u32) -> Option<NatEntry>
        ensures value { result ≡ map.get self.old.entries nid }
        ensures same { self.new ≡ self.old }
    {
        let entry = self.cache.peek(&nid).copied();
        self.cache.promote(&nid);
        entry
    }

    /// Keeps an entry of a nid that has none. An error leaves all as it was.
    pub(crate) fn add(&mut self, nid: u32, e: NatEntry) -> Result<(), AllocError>
        requires { map.get self.old.entries nid ≡ None }
        ensures kept { OnOk result (map.get self.new.entries nid ≡ Some e) }
        ensures others { OnOk result (MayAdd nid e self.old.entries self.new.entries) }
        ensures bounded { map.len self.new.entries ≤ self.new.room }
        ensures room { self.new.room ≡ self.old.room }
        ensures err { OnErr result (self.new ≡ self.old) }
    {
        self.cache.put(nid, e)?;
        Ok(())
    }

    /// Keeps no entry of the nid.
    pub(crate) fn forget(&mut self, nid: u32)
        ensures left { self.new ≡ record self.old { entries = map.remove self.old.entries nid } }
        ensures bounded { map.len self.new.entries ≤ self.new.room }
    {
        if self.cache.len() > 0 {
            self.cache.pop(&nid);
        }
    }
}
