//! A map from numbers to values, in the order of the numbers.
ghost use Rattle.std.specs.Prelude.{◌≡◌, ℕ, ◌<◌, ◌≤◌, ◌^◌, true, None, IsSome, IfSome, IfNone, OnOk, OnErr, is_some};
ghost use Rattle.std.specs.Ordering.{nat_cmp};
ghost use Rattle.std.specs.FinMap as map;
ghost use Rattle.std.specs.Coded.{coded_ℕ};
ghost use Rattle.f2_index.specs.Tables.{IsLastFrom};

use std::alloc::{AllocError, Global};
use std::collections::BTreeMap;
use std::marker::Model;

#[derive(Drop)]
pub struct Table<V> {
    entries: BTreeMap<u32, V>,
}

impl<V> Model for Table<V> {
    ghost Value = { map.FinMap nat_cmp V };

    ghost coded = { map.code coded_ℕ V.code };

    ghost view = { λ t. map.from_entries t.entries.entries };
}

impl<V: Copy> Table<V> {
    pub fn new(alloc: Global) -> Self
        ensures { result ≡ map.empty }
    {
        Self {
            entries: BTreeMap::new(alloc),
        }
    }

    pub fn get(&self, key: u32) -> Option<V>
        ensures { result ≡ map.get self.now key }
    {
        self.entries.get(&key).copied()
    }

    /// Puts a value at the key. It fails only where that takes memory, at a new key.
    pub fn insert(&mut self, key: u32, value: V) -> Result<(), AllocError>
        ensures ok { OnOk result (self.new ≡ map.insert self.old key value) }
        ensures err { OnErr result (self.new ≡ self.old) }
        ensures absent { OnErr result (map.get self.old key ≡ None) }
    {
        self.entries.insert(key, value)?;
        Ok(())
    }

    /// Puts a value at a key that is there, which takes no memory.
    pub fn replace(&mut self, key: u32, value: V)
        requires { IsSome (map.get self.old key) }
        ensures { self.new ≡ map.insert self.old key value }
    {
        if self.insert(key, value).is_err() {
            unreachable!()
        }
    }

    pub fn remove(&mut self, key: u32)
        ensures { self.new ≡ map.remove self.old key }
    {
        self.entries.remove(&key);
    }

    /// How many keys there are.
    pub fn len(&self) -> usize
        ensures len { result ≡ map.len self.now }
        ensures small { result < 2 ^ 63 }
    {
        self.entries.len()
    }

    /// Removes the greatest key, where one from `from` on is there, and returns it.
    pub fn pop_last_from(&mut self, from: u32) -> Option<u32>
        ensures last { IfSome result (IsLastFrom self.old from) }
        ensures removed { IfSome result (λ key. self.new ≡ map.remove self.old key) }
        ensures none { IfNone result ((key : ℕ) → from ≤ key → map.get self.old key ≡ None) }
        ensures unchanged { IfNone result (self.new ≡ self.old) }
    {
        let (&last, _) = self.entries.last_key_value()?;
        if last < from {
            return None;
        }
        self.remove(last);
        Some(last)
    }
}
