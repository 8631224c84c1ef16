//! The cache of the node address table.

ghost use Rattle.std.specs.Prelude.{◌≡◌, ℕ, ◌-◌, ◌<◌, ◌≤◌, None, Some, max, replicate, length, slice_set, Option, IsOk, IsSome, IfSome, IfOk, OnOk, OnErr};
ghost use Rattle.std.specs.FinMap as map;
ghost use Rattle.f2_disk.specs.Meter.{HasFailed};
ghost use Rattle.f2_disk.specs.Using.{IsCaused, OnlyReads};
ghost use Rattle.f2_disk.specs.Contents.{Contents, list_at, last_of};
ghost use Rattle.f2_format.specs.Geometry.{ENTRIES_A_NAT_BLOCK, nid_limit};
ghost use Rattle.f2_format.specs.Nat.{nat_entry};
ghost use Rattle.f2_nat_block.specs.NatEntry.{entry_of};
ghost use Rattle.f2_nat_cache.specs.Entries.{EachOnce, MayAdd};
ghost use Rattle.f2_nat_cache.specs.Plan.{bitmap_after, dirty_sets, journal_after, needed as needed_of, is_pending_block, pending_blocks as blocks_of, plan_of};
ghost use Rattle.f2_nat_cache.specs.Table.{IsKept, known as known_of, entry_at, held_block, nid_at, with_pending};

use crate::clean::CleanEntries;
use crate::dirty::DirtyEntries;
use crate::journal::KnownJournal;
use crate::pending::{merged, pending, write_pending};
use f2_disk::{Block, Disk, DiskFault, ReadFault};
use f2_layout::Geometry;
use f2_nat_block::{Bitmap, NatEntry, entry, locate};
use f2_nat_journal::Journal;
use std::alloc::{AllocError, Global};
use std::marker::Model;

pub(crate) const MOST_JOURNAL_ENTRIES: usize = 38;

/// What a checkpoint writes of the node address table.
#[derive(Clone, Copy, Debug, PartialEq, Eq)]
pub struct CpNat {
    /// The entries that the journal will have.
    pub journal: u32,
    /// The blocks of the table that are written.
    pub blocks: u32,
}

/// The node address table of a running volume.
#[derive(Drop)]
pub struct Cache {
    pub(crate) geometry: Geometry,
    pub(crate) bitmap: Bitmap,
    pub(crate) journal: KnownJournal,
    pub(crate) dirty: DirtyEntries,
    pub(crate) held: Vec<Option<Box<Block>>>,
    clean: CleanEntries,
    alloc: Global,
}

impl Model for Cache {
    ghost use Rattle.std.specs.Prelude.{map as list_map, option_map};
    ghost use Rattle.f2_nat_cache.specs.Table.{Table, table_code, IsTable};

    ghost Value = { Table };

    ghost coded = { table_code };

    ghost view = { λ c. record { geom = c.geometry; bitmap = c.bitmap; journal = c.journal; dirty = c.dirty.entries; held = list_map (option_map (λ b. b.value)) c.held.items; clean = c.clean.entries; spare = c.dirty.spare; room = c.clean.room } };

    ghost invariant = { λ c. IsTable (record { geom = c.geometry; bitmap = c.bitmap; journal = c.journal; dirty = c.dirty.entries; held = list_map (option_map (λ b. b.value)) c.held.items; clean = c.clean.entries; spare = c.dirty.spare; room = c.clean.room }) c.dirty.nat };
}

impl Cache {
    /// The table of the checkpoint with this bitmap and this journal. It will keep at most `room` clean entries.
    pub fn new(
        alloc: Global,
        g: &Geometry,
        bitmap: Bitmap,
        journal: Journal,
        room: usize,
    ) -> Result<Cache, AllocError>
        requires room { 1 ≤ room }
        requires once { EachOnce journal }
        ensures made { IfOk result (λ cache. cache ≡ record { geom = g.now; bitmap = bitmap; journal = journal; dirty = map.empty; held = replicate g.now.nat None; clean = map.empty; spare = 0; room = room }) }
        ensures still_kept { IfOk result (λ cache. (told : Option Contents) → IfSome told (IsKept cache)) }
    {
        let nat = g.nat();
        let mut held = Vec::with_capacity(alloc, nat as usize)?;
        for _ in 0..nat {
            held.push(None)?;
        }
        Ok(Cache {
            geometry: *g,
            bitmap,
            journal: KnownJournal::new(journal),
            dirty: DirtyEntries::new(alloc, nat)?,
            held,
            clean: CleanEntries::new(alloc, room)?,
            alloc,
        })
    }

    /// The entry of a nid. The disk is read only where no part of the table has it.
    ///
    /// An error leaves the cache as it was.
    pub fn get<D: Disk>(&mut self, disk: &mut D, nid: u32) -> Result<NatEntry, ReadFault>
        requires nid { nid < nid_limit self.old.geom }
        requires device { self.old.geom.blocks ≤ (D.meter disk.old).blocks }
        requires kept { IfSome (D.contents disk.old) (IsKept self.old) }

        ensures entry { IfOk result (λ e. IfSome (D.contents disk.old) (λ lists. e ≡ entry_at self.old lists nid)) }
        ensures known { IfSome (known_of self.old nid) (λ e. (result ≡ Ok e) × (disk.new ≡ disk.old) × (self.new ≡ self.old)) }
        ensures clean { known_of self.old nid ≡ None → IfSome (map.get self.old.clean nid) (λ e. (result ≡ Ok e) × (disk.new ≡ disk.old) × (self.new ≡ self.old)) }

        // What is read from the disk is kept as the nid's clean entry, and nothing else changes.
        ensures table { self.new ≡ record self.old { clean = self.new.clean } }
        ensures read { IfOk result (λ e. known_of self.old nid ≡ None → map.get self.new.clean nid ≡ Some e) }
        ensures others { IfOk result (λ e. MayAdd nid e self.old.clean self.new.clean) }
        ensures bounded { map.len self.new.clean ≤ self.new.room }
        ensures still_kept { IfSome (D.contents disk.new) (IsKept self.new) }
        ensures err { OnErr result (self.new ≡ self.old) }

        ensures reads { OnlyReads D.contents D.meter disk.old disk.new }
        ensures cause { IsCaused ReadFault.Read result D.meter disk.old disk.new }
    {
        if let Some(e) = self.known(nid) {
            return Ok(e);
        }
        if let Some(e) = self.clean.get(nid) {
            return Ok(e);
        }
        let (block, place) = locate(nid);
        let at = self.geometry.nat_at(block, self.bitmap.get(block));
        let e = read_entry(disk, at, place)?;
        self.clean.add(nid, e)?;
        Ok(e)
    }

    /// Sets the entry of a nid. It is dirty then, also where it is again what it was.
    ///
    /// An error leaves the cache as it was.
    pub fn put(&mut self, nid: u32, e: NatEntry) -> Result<(), AllocError>
        requires { nid < nid_limit self.old.geom }
        ensures ok { OnOk result (self.new ≡ record self.old { dirty = map.insert self.old.dirty nid e; clean = map.remove self.old.clean nid }) }
        ensures still_kept { OnOk result ((told : Option Contents) → IfSome told (IsKept self.old) → IfSome told (IsKept self.new)) }
        ensures err { OnErr result (self.new ≡ self.old) }
    {
        self.dirty.put(nid, e)?;
        self.clean.forget(nid);
        Ok(())
    }

    /// Holds a block of the table from now on. A block that is held isn't read again.
    ///
    /// An error leaves the cache as it was.
    pub fn hold<D: Disk>(&mut self, disk: &mut D, block: u32) -> Result<(), ReadFault>
        requires block { block < self.old.geom.nat }
        requires device { self.old.geom.blocks ≤ (D.meter disk.old).blocks }
        requires kept { IfSome (D.contents disk.old) (IsKept self.old) }

        ensures held { OnOk result (IsSome (held_block self.new block)) }
        ensures others { OnOk result (self.new ≡ record self.old { held = slice_set self.old.held block (held_block self.new block) }) }
        ensures once { IsSome (held_block self.old block) → IsOk result × (disk.new ≡ disk.old) × (self.new ≡ self.old) }

        // What is held is the copy that counts, where the disk tells it.
        ensures still_kept { IfSome (D.contents disk.new) (IsKept self.new) }
        ensures err { OnErr result (self.new ≡ self.old) }

        ensures reads { OnlyReads D.contents D.meter disk.old disk.new }
        ensures cause { IsCaused ReadFault.Read result D.meter disk.old disk.new }
    {
        if self.held[block as usize].is_some() {
            return Ok(());
        }
        let mut content = Box::new(self.alloc, [0; 4096])?;
        let at = self.geometry.nat_at(block, self.bitmap.get(block));
        disk.read(at, &mut content)?;
        self.held[block as usize] = Some(content);
        Ok(())
    }

    /// Takes memory ahead, so that at least `n` entries can become dirty without any.
    ///
    /// An error leaves the cache as it was.
    pub fn room(&mut self, n: u32) -> Result<(), AllocError>
        ensures ok { OnOk result (self.new ≡ record self.old { spare = max self.old.spare n }) }
        ensures still_kept { OnOk result ((told : Option Contents) → IfSome told (IsKept self.old) → IfSome told (IsKept self.new)) }
        ensures err { OnErr result (self.new ≡ self.old) }
    {
        self.dirty.room(n)
    }

    /// Sets the entry of a nid as [`Cache::put`] does, with memory that [`Cache::room`] took for one entry.
    pub fn put_ready(&mut self, nid: u32, e: NatEntry)
        requires nid { nid < nid_limit self.old.geom }
        requires ready { 0 < self.old.spare }
        ensures put { self.new ≡ record self.old { dirty = map.insert self.old.dirty nid e; clean = map.remove self.old.clean nid; spare = self.old.spare - 1 } }
        ensures still_kept { (told : Option Contents) → IfSome told (IsKept self.old) → IfSome told (IsKept self.new) }
    {
        self.dirty.put_ready(nid, e);
        self.clean.forget(nid);
    }

    /// What a checkpoint writes to a block of the table that is held: the block with its dirty entries and those of
    /// the journal.
    pub fn block(&self, block: u32, into: &mut Block)
        requires { IsSome (held_block self.now block) }
        ensures content { IfSome (held_block self.now block) (λ held. into.new ≡ with_pending self.now.dirty self.now.journal block held) }
        ensures entries { (place : ℕ) → place < ENTRIES_A_NAT_BLOCK → known_of self.now (nid_at block place) ≡ Some (entry_of (nat_entry into.new place)) }
    {
        if let Some(held) = &self.held[block as usize] {
            *into = **held;
            write_pending(&self.dirty, &self.journal, block, into);
        }
    }

    /// The journal of the checkpoint that [`Cache::plan`] tells of: the old one with each dirty entry in place of its
    /// nid's, or else appended by rising nid; an empty one where blocks are written. Each nid stands once.
    pub fn journal(&self) -> Journal
        ensures value { result ≡ journal_after self.now }
        ensures once { EachOnce result }
    {
        if self.needed() > MOST_JOURNAL_ENTRIES {
            return Journal::new();
        }
        merged(&self.dirty, &self.journal, self.geometry.nat())
    }

    /// The bitmap of the checkpoint that [`Cache::plan`] tells of: the bit of each block that it writes is flipped, and
    /// no other.
    pub fn bitmap(&self) -> Bitmap
        ensures value { result ≡ bitmap_after self.now }
    {
        let mut bitmap = self.bitmap;
        if self.needed() <= MOST_JOURNAL_ENTRIES {
            return bitmap;
        }
        for block in 0..self.geometry.nat() {
            if self.is_pending(block) {
                bitmap.flip(block);
            }
        }
        bitmap
    }

    /// The number of each block that has dirty entries, and how many, by rising block.
    pub fn sets(&self) -> Result<Vec<(u32, u32)>, AllocError>
        ensures { IfOk result (λ sets. sets.items ≡ dirty_sets self.now) }
    {
        let mut sets = Vec::new(self.alloc);
        for block in 0..self.geometry.nat() {
            let count = self.dirty.count(block);
            if count > 0 {
                sets.push((block, count))?;
            }
        }
        Ok(sets)
    }

    /// What a checkpoint would write now: all that changed goes into the journal, where that has room for it beside
    /// the journal's other nids; else each block with a dirty entry or an entry in the journal is written.
    pub fn plan(&self) -> CpNat
        ensures { result ≡ plan_of self.now }
    {
        let needed = self.needed();
        if needed <= MOST_JOURNAL_ENTRIES {
            return CpNat {
                journal: needed as u32,
                blocks: 0,
            };
        }
        CpNat {
            journal: 0,
            blocks: self.pending_blocks(),
        }
    }

    /// The entries of a journal with all changes.
    pub(crate) fn needed(&self) -> usize
        ensures value { result ≡ needed_of self.now }
        ensures once { EachOnce self.now.journal }
    {
        let nids = self.journal.nids();
        let others = nids
            .iter()
            .filter(|nid| self.dirty.get(**nid).is_none())
            .count();
        self.dirty.len() + others
    }

    /// Whether a block has a dirty entry or one in the journal.
    pub(crate) fn is_pending(&self, block: u32) -> bool
        requires { block < self.now.geom.nat }
        ensures { result ≡ is_pending_block self.now block }
    {
        self.dirty.count(block) > 0 || self.journal.has_block(block)
    }

    /// How many blocks have a pending entry.
    fn pending_blocks(&self) -> u32
        ensures { result ≡ length (blocks_of self.now) }
    {
        let mut count = 0;
        for block in 0..self.geometry.nat() {
            if self.is_pending(block) {
                count += 1;
            }
        }
        count
    }

    /// The entry of a nid, where neither the disk nor a clean entry is needed to tell it.
    fn known(&self, nid: u32) -> Option<NatEntry>
        requires { nid < nid_limit self.now.geom }
        ensures { result ≡ known_of self.now nid }
    {
        if let Some(e) = pending(&self.dirty, &self.journal, nid) {
            return Some(e);
        }
        let (block, place) = locate(nid);
        match &self.held[block as usize] {
            Some(held) => Some(entry(held, place)),
            None => None,
        }
    }
}

/// The entry at a place of the block at an address.
fn read_entry<D: Disk>(disk: &mut D, at: u32, place: u16) -> Result<NatEntry, DiskFault>
    requires at { at < (D.meter disk.old).blocks }
    requires place { place < ENTRIES_A_NAT_BLOCK }

    ensures entry { IfOk result (λ e. IfSome (D.contents disk.old) (λ lists. e ≡ entry_of (nat_entry (last_of (list_at lists at)) place))) }
    ensures reads { OnlyReads D.contents D.meter disk.old disk.new }
    ensures cause { OnErr result (HasFailed (D.meter disk.old) (D.meter disk.new)) }
{
    let mut block = [0; 4096];
    disk.read(at, &mut block)?;
    Ok(entry(&block, place))
}
