//! The history of a volume.
ghost use Rattle.std.specs.Prelude.{◌≡◌, ◌+◌, ◌<◌, [], ◌∷◌, ◌++◌, length, max, option_to_list, slice_get, OnOk, OnErr};

use crate::replies::{Outcome, Plan};
use crate::requests::BoxedRequest;
use std::alloc::{AllocError, Global};
use std::marker::Model;
use std::mem::size_of;

/// A call begins only while the history has fewer entries.
pub const MOST_ENTRIES: usize = 262_144;

/// A kind of call of a disk.
#[derive(Clone, Copy, Debug, PartialEq, Eq)]
pub enum CallKind {
    Read,
    Write,
    Flush,
}

/// One entry of the history, of at most 32 bytes.
#[derive(Debug, Drop)]
pub enum Entry {
    /// A call of several events began.
    Begin {
        seat: u8,
        request: BoxedRequest,
    },
    /// A call of one event was answered.
    Did {
        seat: u8,
        request: BoxedRequest,
        outcome: Outcome,
    },
    /// A page was written.
    WrotePage {
        ino: u32,
        page: u32,
    },
    /// A direct node was written to the node log.
    WroteNode {
        ino: u32,
        offset: u32,
    },
    /// An fsync flushed its pages.
    Flushed {
        seat: u8,
    },
    /// An fsync wrote its marked inode.
    Mark {
        seat: u8,
        ino: u32,
    },
    /// An fsync was acknowledged.
    Ack {
        seat: u8,
        ino: u32,
    },
    /// A checkpoint began.
    CpBegin {
        seat: u8,
        plan: Plan,
    },
    /// A checkpoint wrote its tail.
    CpTail {
        seat: u8,
    },
    /// A checkpoint is done.
    CpDone {
        seat: u8,
    },
    /// A call of the disk failed; `count` is the disk's count of faults after the event.
    Fault {
        seat: u8,
        kind: CallKind,
        count: u64,
    },
    /// Power was lost.
    Crash,
    /// A mount found this many marked rows.
    Mounted {
        rows: u32,
    },
    /// The volume was unmounted.
    Unmounted,
}

const _: () = prove!(size_of::<Entry>() <= 32);

/// The history: its entries, and the choices that the tree doesn't determine.
#[derive(Debug, Drop)]
pub struct Log {
    entries: Vec<Entry>,
    choices: Vec<u32>,
    /// For how many further entries both lists have room.
    spare: u32,
}

impl Model for Log {
    ghost use Rattle.std.specs.Prelude.{◌+◌, ◌≤◌, vec_len, vec_capacity};
    ghost use Rattle.f2_model.specs.History.{History};

    ghost Value = { History };

    ghost view = { λ l. record { entries = l.entries.items; choices = l.choices.items; spare = l.spare } };

    ghost invariant = { λ l. (vec_len l.entries + l.spare ≤ vec_capacity l.entries) × (vec_len l.choices + l.spare ≤ vec_capacity l.choices) };
}

impl Log {
    /// The empty history, which takes no memory and has no room yet.
    pub fn new(alloc: Global) -> Log
        ensures { result ≡ record { entries = []; choices = []; spare = 0 } }
    {
        Log {
            entries: Vec::new(alloc),
            choices: Vec::new(alloc),
            spare: 0,
        }
    }

    /// For how many further entries there is room.
    pub fn spare(&self) -> u32
        ensures { result ≡ self.now.spare }
    {
        self.spare
    }

    /// Makes room for at least `n` further entries. Where memory is refused the room stays as it was.
    pub fn room(&mut self, n: u32) -> Result<(), AllocError>
        ensures ok { OnOk result (self.new ≡ record self.old { spare = max self.old.spare n }) }
        ensures err { OnErr result (self.new ≡ self.old) }
    {
        if n > self.spare {
            self.entries.reserve(n as usize)?;
            self.choices.reserve(n as usize)?;
            self.spare = n;
        }
        Ok(())
    }

    /// Appends an entry and, where there is one, the choice that it rests on. It takes no memory.
    pub fn add(&mut self, entry: Entry, choice: Option<u32>)
        requires { 0 < self.old.spare }
        ensures entries { self.new.entries ≡ self.old.entries ++ entry ∷ [] }
        ensures choices { self.new.choices ≡ self.old.choices ++ option_to_list choice }
        ensures spare { self.new.spare + 1 ≡ self.old.spare }
    {
        self.entries.push_reserved(entry);
        if let Some(choice) = choice {
            self.choices.push_reserved(choice);
        }
        self.spare -= 1;
    }

    /// The number of entries.
    pub fn len(&self) -> usize
        ensures { result ≡ length self.now.entries }
    {
        self.entries.len()
    }

    /// The entry at a place, counted from 0.
    pub fn at(&self, place: usize) -> &Entry
        requires { place < length self.now.entries }
        ensures { slice_get self.now.entries place ≡ Some result.now }
    {
        &self.entries[place]
    }
}
