//! The journal of the last checkpoint, with its nids.

ghost use Rattle.std.specs.Prelude.{◌≡◌, ◌==◌, ◌≤◌, ◌<◌, length, option_map};
ghost use Rattle.std.specs.List.{list_any};
ghost use Rattle.f2_format.specs.Journal.{journal_find};
ghost use Rattle.f2_format.specs.Nat.{nat_block_of};
ghost use Rattle.f2_nat_block.specs.NatEntry.{entry_of};
ghost use Rattle.f2_nat_cache.specs.Entries.{EachOnce, nids_of as listed};

use arrayvec::ArrayVec;
use f2_bytes::{get16, get32};
use f2_nat_block::{NatEntry, locate};
use f2_nat_journal::Journal;
use std::marker::Model;

const COUNT_AT: usize = 3584;

const ENTRIES_AT: usize = 3586;

const ENTRY_BYTES: usize = 13;

// For so many entries a summary has room; a journal has at most 38.
const MOST_NIDS: usize = 39;

/// A journal in which each nid stands once.
#[derive(Drop)]
pub(crate) struct KnownJournal {
    journal: Journal,
    nids: ArrayVec<u32, MOST_NIDS>,
}

impl Model for KnownJournal {
    ghost use Rattle.std.specs.Prelude.{◌≡◌};
    ghost use Rattle.f2_format.specs.Journal.{JournalList};
    ghost use Rattle.f2_nat_cache.specs.Entries.{EachOnce, nids_of as listed};

    ghost Value = { JournalList };

    ghost view = { λ j. j.journal };

    ghost invariant = { λ j. (j.nids.items ≡ listed j.journal) × EachOnce j.journal };
}

impl KnownJournal {
    /// This journal.
    pub(crate) fn new(journal: Journal) -> Self
        requires { EachOnce journal }
        ensures { result ≡ journal }
    {
        let nids = nids_of(&journal);
        KnownJournal { journal, nids }
    }

    /// The entry of a nid.
    pub(crate) fn find(&self, nid: u32) -> Option<NatEntry>
        ensures { result ≡ option_map entry_of (journal_find self.now nid) }
    {
        self.journal.find(nid)
    }

    /// The nids, in the order in which they stand.
    pub(crate) fn nids(&self) -> &[u32]
        ensures nids { result.now ≡ listed self.now }
        ensures once { EachOnce self.now }
    {
        self.nids.as_slice()
    }

    /// Whether a nid is of this block of the table.
    pub(crate) fn has_block(&self, block: u32) -> bool
        ensures { result ≡ list_any (λ nid. nat_block_of nid == block) (listed self.now) }
    {
        self.nids.iter().any(|nid| locate(*nid).0 == block)
    }
}

/// The nids of a journal, which its summary tells.
fn nids_of(journal: &Journal) -> ArrayVec<u32, MOST_NIDS>
    ensures { result.items ≡ listed journal.now }
{
    let mut summary = [0; 4096];
    journal.write(&mut summary);
    let mut nids = ArrayVec::new();
    for place in 0..get16(&summary, COUNT_AT) as usize {
        nids.push(get32(&summary, ENTRIES_AT + ENTRY_BYTES * place));
    }
    nids
}
