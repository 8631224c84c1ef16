ghost use Rattle.std.specs.Prelude.{◌≡◌, ℕ, ◌+◌, ◌-◌, ◌<◌, ◌≤◌, ◌++◌, [], ◌∷◌, IfOk, OnOk, OnErr, IsTrue, ◌↔◌, All, length, map, max, slice_index_or, slice_set, vec_len};
ghost use Rattle.std.specs.List.Sorted.{IsNonDecreasingBy};
ghost use Rattle.f2_disk.specs.declared.store.Older.{Older};
ghost use Rattle.f2_disk.specs.Contents.{IsBlock, IsWhole, blank, flushed, last_of, list_at};
ghost use Rattle.f2_disk.specs.Pick.{crashed, picked};
ghost use Rattle.f2_disk.specs.Store.{IsOrderly, content_of, lists_of};

use crate::Block;
use crate::disk::blank_block;
use std::alloc::{AllocError, Global};
use std::marker::Model;

/// The pick that leaves each block its newest content.
const NEWEST: u64 = u64::MAX;

/// The content of a block. One that holds zeros alone takes no memory.
type Kept = Option<Box<Block>>;

/// A content that stood in its block before the newest.
#[derive(Drop)]
pub(crate) struct Older {
    at: u32,
    content: Kept,
}

/// The blocks of a bench. Apart from the newest contents, it keeps those that were written over since the last flush,
/// by rising address and oldest first, so that a flush and a crash cost what was written, and not the whole disk.
#[derive(Drop)]
pub(crate) struct Store {
    alloc: Global,
    newest: Vec<Kept>,
    older: Vec<Older>,
    room: Vec<Box<Block>>,
}

impl Model for Store {
    ghost use Rattle.std.specs.Prelude.{◌+◌, ◌≤◌, vec_len, vec_capacity};
    ghost use Rattle.f2_disk.specs.Store.{Stored, IsOrderly, lists_of};

    ghost Value = { Stored };

    ghost view = { λ s. record { lists = lists_of s.newest.items s.older.items; spare = vec_len s.room } };

    ghost invariant = { λ s. IsOrderly s.newest.items s.older.items
        × (vec_len s.older + vec_len s.room ≤ vec_capacity s.older) };
}

impl Store {
    pub(crate) fn new(alloc: Global) -> Self
        ensures { result ≡ record { lists = []; spare = 0 } }
    {
        Store {
            alloc,
            newest: Vec::new(alloc),
            older: Vec::new(alloc),
            room: Vec::new(alloc),
        }
    }

    pub(crate) fn blocks(&self) -> u32
        ensures count { result ≡ length self.now.lists }
        ensures whole { IsWhole (length self.now.lists) self.now.lists }
    {
        self.newest.len() as u32
    }

    /// Begins anew with this many blocks of zeros. Without memory nothing changes.
    pub(crate) fn start(&mut self, blocks: u32) -> Result<(), AllocError>
        ensures blank { OnOk result (self.new ≡ record self.old { lists = blank blocks }) }
        ensures kept { OnErr result (self.new ≡ self.old) }
    {
        let mut newest = Vec::with_capacity(self.alloc, blocks as usize)?;
        for _ in 0..blocks {
            newest.push(None)?;
        }
        self.newest = newest;
        self.older.clear();
        Ok(())
    }

    /// Takes room for `n` writes.
    pub(crate) fn ready(&mut self, n: u32) -> Result<(), AllocError>
        ensures room { OnOk result (n ≤ self.new.spare) }
        ensures more { self.old.spare ≤ self.new.spare }
        ensures kept { self.new.lists ≡ self.old.lists }
    {
        self.older.reserve(n as usize)?;
        fill(self.alloc, &mut self.room, n as usize)
    }

    /// Copies the newest content of a block.
    pub(crate) fn read(&self, at: u32, into: &mut Block)
        requires { at < length self.now.lists }
        ensures { into.new ≡ last_of (list_at self.now.lists at) }
    {
        *into = match &self.newest[at as usize] {
            Some(block) => **block,
            None => blank_block(),
        };
    }

    /// Appends a content to a block's list, if there is room.
    pub(crate) fn put(&mut self, at: u32, from: &Block) -> bool
        requires { at < length self.old.lists }
        ensures room { IsTrue result ↔ (0 < self.old.spare) }
        ensures put { IsTrue result → self.new ≡ record {
          lists = slice_set self.old.lists at (list_at self.old.lists at ++ from.now ∷ []);
          spare = self.old.spare - 1;
        } }
        ensures full { self.old.spare ≡ 0 → self.new ≡ self.old }
    {
        let Some(mut block) = self.room.pop() else {
            return false;
        };
        *block = *from;
        let content = self.newest[at as usize].replace(block);
        let place = self.older.partition_point(|entry| entry.at <= at);
        if self.older.insert(place, Older { at, content }).is_err() {
            unreachable!()
        }
        true
    }

    /// Leaves each block its newest content alone.
    pub(crate) fn flush(&mut self)
        ensures { self.new ≡ record self.old { lists = flushed self.old.lists } }
    {
        self.older.clear();
    }

    /// Leaves each block the one of its contents that `pick` numbers.
    pub(crate) fn crash(&mut self, pick: u64)
        ensures crashed { self.new ≡ record self.old { lists = crashed pick self.old.lists } }
        ensures whole { IsWhole (length self.old.lists) self.old.lists }
    {
        if pick != NEWEST {
            choose(&mut self.newest, &mut self.older, pick);
        }
        self.older.clear();
    }
}

/// Makes the content that `pick` numbers the newest of its block. Blocks with nothing older stay.
fn choose(newest: &mut [Kept], older: &mut [Older], pick: u64)
    requires { IsOrderly newest.old older.old }
    ensures chosen { map content_of newest.new ≡ picked pick (lists_of newest.old older.old) }
    ensures blocks { All (λ kept. IsBlock (content_of kept)) newest.new }
{
    let mut rest = pick;
    let mut next = 0;
    while next < older.len() {
        let at = older[next].at;
        let count = run_len(older, next);
        let contents = count as u64 + 1;
        let kept = (rest % contents) as usize;
        if kept < count {
            let entry = &mut older[next + kept];
            newest[at as usize] = entry.content.take();
        }
        rest /= contents;
        next += count;
    }
}

/// How many older contents from this one on belong to its block.
fn run_len(older: &[Older], from: usize) -> usize
    requires rising { IsNonDecreasingBy (λ (entry : Older). entry.at) older.now }
    requires inside { from < length older.now }
    ensures some { 0 < result }
    ensures bound { from + result ≤ length older.now }
    ensures same { (k : ℕ) (d : Older) → from ≤ k → k < from + result
        → (slice_index_or older.now k d).at ≡ (slice_index_or older.now from d).at }
    ensures later { (k : ℕ) (d : Older) → from + result ≤ k → k < length older.now
        → (slice_index_or older.now from d).at < (slice_index_or older.now k d).at }
{
    let at = older[from].at;
    older.partition_point(|entry| entry.at <= at) - from
}

/// Adds blocks up to this number of them.
fn fill(alloc: Global, room: &mut Vec<Box<Block>>, wanted: usize) -> Result<(), AllocError>
    ensures filled { OnOk result (wanted ≤ vec_len room.new) }
    ensures more { vec_len room.old ≤ vec_len room.new }
    ensures bound { vec_len room.new ≤ max (vec_len room.old) wanted }
{
    for _ in room.len()..wanted {
        room.push(Box::new(alloc, blank_block())?)?;
    }
    Ok(())
}
