//! The journal of node address table entries that stands in the summary of a checkpoint pack.
//!
//! A [`Journal`] is seen as the list of its nids with their entries, at most 38, in the order in which they
//! stand. The layer above reads it with [`Journal::read`] and writes it with [`Journal::write`], which give
//! back the same list ([`written_journal_reads_back`]); in between it asks and changes it with
//! [`Journal::find`] and [`Journal::put`].
//!
//! The definitions stand in `f2_format`, in `specs/Journal.antt`.
#![tactic(auto)]

ghost use Rattle.std.specs.Prelude.{position, ◌==◌, ◌≡◌, ◌<◌, ◌≤◌, ◌↔◌, [], length, None, IsErr, IfOk, IfErr, OnOk, OnErr, option_map};
ghost use Rattle.f2_format.specs.Journal.{JournalList, journal_count, journal_entry, journal_of, summary_block, journal_find, journal_with, journal_entry_start, journal_entry_bytes};
ghost use Rattle.f2_nat_block.specs.NatEntry.{entry_of, place_of as pair};
ghost use Rattle.f2_nat_journal.specs.Item.{pair_of};
ghost use Rattle.f2_nat_journal.specs.Round.{IsEntry, WrittenJournalReadsBack};
ghost use Rattle.f2_format.specs.Bytes.{with_bytes};

use arrayvec::ArrayVec;
use f2_bytes::{Block, get16, get32, put16, put32};
use f2_nat_block::NatEntry;
use std::marker::Model;
use thiserror::Error;

const MOST_ENTRIES: usize = 38;

const COUNT_AT: usize = 3584;

const ENTRIES_AT: usize = 3586;

const ENTRY_BYTES: usize = 13;

/// The summary says that it has more entries than a journal holds.
#[derive(Clone, Copy, Debug, PartialEq, Eq, Error)]
#[error("a journal of {count} entries")]
pub struct JournalFault {
    /// The entries that the summary says it has: above 38.
    pub count: u16,
}

/// The journal has 38 entries, and none of them is the nid's.
#[derive(Clone, Copy, Debug, PartialEq, Eq, Error)]
#[error("the journal is full")]
pub struct Full;

/// One entry: a nid, and what it says of it.
#[derive(Clone, Copy, Debug, Default, PartialEq, Eq)]
struct Item {
    nid: u32,
    entry: NatEntry,
}

/// A journal of at most 38 entries.
#[derive(Drop)]
pub struct Journal {
    items: ArrayVec<Item, MOST_ENTRIES>,
}

impl Model for Journal {
    ghost use Rattle.f2_format.specs.Journal.{JournalList};
    ghost use Rattle.f2_nat_journal.specs.Item.{journal_list};

    ghost Value = { JournalList };

    ghost view = { λ j. journal_list j.items.items };
}

impl Journal {
    /// The journal with no entry.
    pub fn new() -> Journal
        ensures { result ≡ [] }
    {
        Journal {
            items: ArrayVec::new(),
        }
    }

    /// The journal of a summary.
    pub fn read(b: &Block) -> Result<Journal, JournalFault>
        ensures ok { IfOk result (λ j. j ≡ journal_of b.now) }
        ensures fault { IsErr result ↔ (38 < journal_count b.now) }
        ensures count { IfErr result (λ e. e.count ≡ journal_count b.now) }
    {
        let count = get16(b, COUNT_AT);
        if count as usize > MOST_ENTRIES {
            return Err(JournalFault { count });
        }
        let mut items = ArrayVec::new();
        for place in 0..count as usize {
            items.push(read_item(b, place));
        }
        Ok(Journal { items })
    }

    /// Makes the block a summary with this journal. Every byte that is no field's is 0.
    pub fn write(&self, b: &mut Block)
        ensures written { b.new ≡ summary_block self.now }
        ensures count { journal_count b.new ≡ length self.now }
        ensures reads_back { journal_of b.new ≡ self.now }
    {
        *b = [0; 4096];
        let items = self.items.as_slice();
        put16(b, COUNT_AT, items.len() as u16);
        for (place, item) in items.iter().enumerate() {
            write_item(b, place, item.nid, item.entry);
        }
    }

    /// What the first entry of the nid says.
    pub fn find(&self, nid: u32) -> Option<NatEntry>
        ensures { result ≡ option_map entry_of (journal_find self.now nid) }
    {
        let items = self.items.as_slice();
        match place_of(items, nid) {
            Some(place) => Some(items[place].entry),
            None => None,
        }
    }

    /// Makes the journal say this of the nid: in place of its first entry, or else as a new last one.
    pub fn put(&mut self, nid: u32, e: NatEntry) -> Result<(), Full>
        ensures ok { OnOk result (self.new ≡ journal_with self.old nid (pair e)) }
        ensures full { IsErr result ↔ ((journal_find self.old nid ≡ None) × (length self.old ≡ 38)) }
        ensures err { OnErr result (self.new ≡ self.old) }
    {
        let item = Item { nid, entry: e };
        match place_of(self.items.as_slice(), nid) {
            Some(place) => {
                self.items.as_mut_slice()[place] = item;
                Ok(())
            }
            None if self.items.is_full() => Err(Full),
            None => {
                self.items.push(item);
                Ok(())
            }
        }
    }
}

/// A journal that was written into a summary is read from it, where it has at most 38 entries and each number
/// fits its bytes.
pub fn written_journal_reads_back()
    ensures { WrittenJournalReadsBack }
{}

/// The place of the first item of the nid.
fn place_of(items: &[Item], nid: u32) -> Option<usize>
    ensures { result ≡ position (λ item. item.nid == nid) items.now }
{
    items.iter().position(|item| item.nid == nid)
}

/// The entry at this place of a summary's journal.
fn read_item(b: &Block, place: usize) -> Item
    requires { place < 38 }
    ensures { pair_of result ≡ journal_entry b.now place }
{
    let at = ENTRIES_AT + ENTRY_BYTES * place;
    Item {
        nid: get32(b, at),
        entry: NatEntry {
            ino: get32(b, at + 5),
            addr: get32(b, at + 9),
        },
    }
}

/// Puts an entry at this place of a summary's journal.
fn write_item(b: &mut Block, place: usize, nid: u32, e: NatEntry)
    requires { place < 38 }
    ensures written { b.new ≡ with_bytes b.old (journal_entry_start place) (journal_entry_bytes (nid, pair e)) }
    ensures fits { IsEntry (nid, pair e) }
{
    let at = ENTRIES_AT + ENTRY_BYTES * place;
    put32(b, at, nid);
    b[at + 4] = 0;
    put32(b, at + 5, e.ino);
    put32(b, at + 9, e.addr);
}
