//! The entries that go before their blocks: those that are dirty, and those of the journal.

ghost use Rattle.std.specs.Prelude.{◌≡◌, ℕ, ◌+◌, ◌*◌, ◌<◌, ◌≤◌, None, [], ◌∷◌, ◌++◌, length, unwrap_or, if◌then◌else◌, IsSome};
ghost use Rattle.std.specs.FinMap as map;
ghost use Rattle.f2_format.specs.Geometry.{ENTRIES_A_NAT_BLOCK};
ghost use Rattle.f2_format.specs.Journal.{MOST_JOURNAL_ENTRIES, journal_find};
ghost use Rattle.f2_format.specs.Nat.{nat_entry};
ghost use Rattle.f2_nat_block.specs.NatEntry.{entry_of, place_of};
ghost use Rattle.f2_nat_cache.specs.Plan.{is_new, merged as merged_of, merged_below};
ghost use Rattle.f2_nat_cache.specs.Table.{nid_at, pending as pending_of, with_pending};

use crate::dirty::DirtyEntries;
use crate::journal::KnownJournal;
use f2_disk::Block;
use f2_nat_block::{NatEntry, entry, set};
use f2_nat_journal::Journal;

const ENTRIES_A_BLOCK: u16 = 455;

/// The entry of a nid that goes before its block: the dirty one, else the journal's.
pub(crate) fn pending(dirty: &DirtyEntries, journal: &KnownJournal, nid: u32) -> Option<NatEntry>
    ensures { result ≡ pending_of dirty.now.entries journal.now nid }
{
    if let Some(e) = dirty.get(nid) {
        return Some(e);
    }
    journal.find(nid)
}

/// Puts the pending entries of a block of the table into it.
pub(crate) fn write_pending(
    dirty: &DirtyEntries,
    journal: &KnownJournal,
    block: u32,
    into: &mut Block,
)
    requires { block < 1024 }
    ensures content { into.new ≡ with_pending dirty.now.entries journal.now block into.old }
    ensures entries { (place : ℕ) → place < ENTRIES_A_NAT_BLOCK → entry_of (nat_entry into.new place) ≡ unwrap_or (pending_of dirty.now.entries journal.now (nid_at block place)) (entry_of (nat_entry into.old place)) }
{
    for place in 0..ENTRIES_A_BLOCK {
        if let Some(e) = pending(
            dirty,
            journal,
            ENTRIES_A_BLOCK as u32 * block + place as u32,
        ) {
            set(into, place, e);
        }
    }
}

/// The journal with all changes of a table of `blocks` blocks, for which there is room.
pub(crate) fn merged(dirty: &DirtyEntries, journal: &KnownJournal, blocks: u32) -> Journal
    requires blocks { blocks ≤ 1024 }
    requires nat { dirty.now.nat ≡ blocks }
    requires within { (nid : ℕ) → IsSome (map.get dirty.now.entries nid) → nid < ENTRIES_A_NAT_BLOCK * blocks }
    requires room { length (merged_of dirty.now.entries journal.now) ≤ MOST_JOURNAL_ENTRIES }
    ensures { result ≡ merged_of dirty.now.entries journal.now }
{
    let mut merged = Journal::new();
    for nid in journal.nids() {
        if let Some(e) = pending(dirty, journal, *nid) {
            append(&mut merged, *nid, e);
        }
    }
    for block in 0..blocks {
        if dirty.count(block) > 0 {
            append_new(dirty, journal, block, &mut merged);
        }
    }
    merged
}

/// Appends the dirty entries of the new nids of one block, where those of earlier blocks are there.
fn append_new(dirty: &DirtyEntries, journal: &KnownJournal, block: u32, into: &mut Journal)
    requires block { block < 1024 }
    requires earlier { into.old ≡ merged_below dirty.now.entries journal.now (ENTRIES_A_NAT_BLOCK * block) }
    requires room { length (merged_below dirty.now.entries journal.now (ENTRIES_A_NAT_BLOCK * block + ENTRIES_A_NAT_BLOCK)) ≤ MOST_JOURNAL_ENTRIES }
    ensures { into.new ≡ merged_below dirty.now.entries journal.now (ENTRIES_A_NAT_BLOCK * block + ENTRIES_A_NAT_BLOCK) }
{
    for place in 0..ENTRIES_A_BLOCK {
        let nid = ENTRIES_A_BLOCK as u32 * block + place as u32;
        if let Some(e) = fresh(dirty, journal, nid) {
            append(into, nid, e);
        }
    }
}

/// The dirty entry of a nid that the journal doesn't have.
fn fresh(dirty: &DirtyEntries, journal: &KnownJournal, nid: u32) -> Option<NatEntry>
    ensures { result ≡ (if is_new journal.now nid then map.get dirty.now.entries nid else None) }
{
    match journal.find(nid) {
        Some(_) => None,
        None => dirty.get(nid),
    }
}

/// Appends an entry of a nid that isn't there, for which there is room.
fn append(journal: &mut Journal, nid: u32, e: NatEntry)
    requires absent { journal_find journal.old nid ≡ None }
    requires room { length journal.old < MOST_JOURNAL_ENTRIES }
    ensures { journal.new ≡ journal.old ++ (nid, place_of e) ∷ [] }
{
    match journal.put(nid, e) {
        Ok(()) => {}
        Err(_) => unreachable!(),
    }
}
