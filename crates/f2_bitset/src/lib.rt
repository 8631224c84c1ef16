//! A set of numbers from a fixed range that finds its least gap.
//!
//! The volume hands out numbers of two kinds, nids and block addresses, and always the least one
//! that is free. Both stand in such a set: a bitmap of 64-bit words, as the kernel keeps them
//! (`free_nid_bitmap` of `struct f2fs_nm_info`, `cur_valid_map` of `struct seg_entry`). All memory
//! is taken when the set is made, and no later call takes any.
//!
//! What the layer above uses: contracts see a set as its range and its members, and
//! [`BitSet::least_missing`] gives the least number of the range that is no member, exactly where
//! there are fewer members than the range has numbers.
//!
//! A search begins at the first word that may have a gap. It skips 64 numbers a step, and between
//! two removals no word is passed twice.
//!
//! The definitions stand in `specs/Numbers.antt`, and what the words mean in `specs/Words.antt`.
#![tactic(auto)]

ghost use Rattle.std.specs.Prelude.{◌≡◌, ℕ, ◌+◌, ◌*◌, ◌^◌, ◌<◌, ◌≤◌, ◌↔◌, true, false, length, IsTrue, IsNone, IfSome, IfNone, IfOk};
ghost use Rattle.std.specs.Bool.{OnTrue};
ghost use Rattle.std.specs.FinSet as set;
ghost use Rattle.f2_bitset.specs.Numbers.{IsInRange, IsFull, IsLeastMissing};
ghost use Rattle.f2_bitset.specs.Words.{has_bit};

use std::alloc::{AllocError, Global};
use std::marker::Model;

/// A set of numbers from one range.
///
/// Contracts see it as the first number of the range, how many the range has, and the members.
#[derive(Debug, Drop)]
pub struct BitSet {
    first: u32,
    count: u32,
    len: u32,
    // Every word before this one is full.
    low: usize,
    words: Vec<u64>,
}

impl Model for BitSet {
    ghost use Rattle.f2_bitset.specs.Numbers.{Numbers, numbers_code};
    ghost use Rattle.f2_bitset.specs.Words.{members_of, IsBitmap};

    ghost Value = { Numbers };

    ghost coded = { numbers_code };

    ghost view = { λ s. record { first = s.first; count = s.count; members = members_of s.first s.count s.words.items } };

    ghost invariant = { λ s. IsBitmap s.first s.count s.len s.low s.words.items };
}

impl BitSet {
    /// The empty set over the `count` numbers from `first` on. It takes one bit for each.
    pub fn new(alloc: Global, first: u32, count: u32) -> Result<Self, AllocError>
        requires { first + count < 2 ^ 32 }
        ensures { IfOk result (λ s. s ≡ record { first = first; count = count; members = set.empty }) }
    {
        let words = vec![in alloc; 0; count.div_ceil(64) as usize]?;
        Ok(BitSet {
            first,
            count,
            len: 0,
            low: 0,
            words,
        })
    }

    /// How many members there are.
    pub fn len(&self) -> u32
        ensures len { result ≡ set.len self.now.members }
        ensures within { result ≤ self.now.count }
    {
        self.len
    }

    /// Whether there is no member.
    pub fn is_empty(&self) -> bool
        ensures { IsTrue result ↔ (set.len self.now.members ≡ 0) }
    {
        self.len == 0
    }

    /// Whether the number is a member. A number outside the range is none.
    pub fn contains(&self, number: u32) -> bool
        ensures member { result ≡ set.contains self.now.members number }
        ensures in_range { OnTrue result (IsInRange self.now number) }
    {
        if number < self.first || number - self.first >= self.count {
            return false;
        }
        let place = (number - self.first) as usize;
        self.words[place / 64] >> (place % 64) & 1 == 1
    }

    /// Makes the number a member.
    pub fn insert(&mut self, number: u32)
        requires { IsInRange self.old number }
        ensures { self.new ≡ record self.old { members = set.insert self.old.members number } }
    {
        if !self.contains(number) {
            let place = (number - self.first) as usize;
            self.words[place / 64] |= 1 << (place % 64);
            self.len += 1;
        }
    }

    /// Takes the number out, if it is a member.
    pub fn remove(&mut self, number: u32)
        ensures { self.new ≡ record self.old { members = set.remove self.old.members number } }
    {
        if self.contains(number) {
            let place = (number - self.first) as usize;
            self.words[place / 64] &= !(1 << (place % 64));
            self.len -= 1;
            self.low = self.low.min(place / 64);
        }
    }

    /// Takes out all members.
    pub fn clear(&mut self)
        ensures { self.new ≡ record self.old { members = set.empty } }
    {
        self.words.fill(0);
        self.len = 0;
        self.low = 0;
    }

    /// Makes the members those of another set over the same range.
    pub fn copy_from(&mut self, other: &BitSet)
        requires first { self.old.first ≡ other.now.first }
        requires count { self.old.count ≡ other.now.count }
        ensures { self.new ≡ other.now }
    {
        self.words.copy_from_slice(&other.words);
        self.len = other.len;
        self.low = other.low;
    }

    /// The least number of the range that is no member. There is none exactly where all are members.
    pub fn least_missing(&self) -> Option<u32>
        ensures none { IsNone result ↔ (set.len self.now.members ≡ self.now.count) }
        ensures all { IfNone result (IsFull self.now) }
        ensures least { IfSome result (IsLeastMissing self.now) }
    {
        match least_clear(&self.words, self.low) {
            Some(place) if place < self.count as usize => Some(self.first + place as u32),
            _ => None,
        }
    }

    /// Makes the least number that is no member one, and gives it. There is none exactly where all
    /// are members.
    pub fn insert_least(&mut self) -> Option<u32>
        ensures none { IsNone result ↔ (set.len self.old.members ≡ self.old.count) }
        ensures all { IfNone result (IsFull self.old) }
        ensures least { IfSome result (IsLeastMissing self.old) }
        ensures inserted { IfSome result (λ number. self.new ≡ record self.old { members = set.insert self.old.members number }) }
        ensures unchanged { IfNone result (self.new ≡ self.old) }
    {
        let number = self.least_missing()?;
        self.low = (number - self.first) as usize / 64;
        self.insert(number);
        Some(number)
    }
}

// The least place whose bit is clear, from this word on.
fn least_clear(words: &[u64], low: usize) -> Option<usize>
    requires { length words.now < 2 ^ 32 }
    ensures clear { IfSome result (λ place. has_bit words.now place ≡ false) }
    ensures before { IfSome result (λ place. (other : ℕ) → 64 * low ≤ other → other < place → has_bit words.now other ≡ true) }
    ensures all { IfNone result ((other : ℕ) → 64 * low ≤ other → other < 64 * length words.now → has_bit words.now other ≡ true) }
{
    for at in low..words.len() {
        let word = words[at];
        if word != u64::MAX {
            return Some(at * 64 + word.trailing_ones() as usize);
        }
    }
    None
}
