//! The store of dirty and clean pages.

ghost use Rattle.std.specs.Prelude.{◌≡◌, ◌-◌, ◌<◌, ◌≤◌, ◌⊎◌, None, Some, max, is_some, if◌then◌else◌, option_copied, length, IsOk, IsSome, IfOk, OnOk, OnErr};
ghost use Rattle.std.specs.FinMap as map;
ghost use Rattle.f2_disk.specs.Using.{IsCaused, OnlyReads};
ghost use Rattle.f2_pages.specs.Kept.{page_cmp, IsCurrent, IsRead, MayAdd};

use f2_disk::{Block, Disk, ReadFault};
use lru::LruCache;
use std::alloc::{AllocError, Global};
use std::collections::HashMap;
use std::marker::Model;
use std::num::NonZeroUsize;

/// The dirty and the clean pages of a volume, each named by its file's ino and its number.
#[derive(Drop)]
pub struct PageStore {
    dirty: HashMap<(u32, u32), Box<Block>>,
    clean: LruCache<(u32, u32), Block>,
    // Blocks for pages that become dirty, `spare` of them at least.
    blocks: Vec<Box<Block>>,
    spare: u32,
    alloc: Global,
}

impl Model for PageStore {
    ghost use Rattle.std.specs.Prelude.{map as map_list, length};
    ghost use Rattle.std.specs.FinMap as map;
    ghost use Rattle.std.specs.HashMap.{spare as places_of};
    ghost use Rattle.f2_pages.specs.Kept.{Kept, kept_code, IsStore};

    ghost Value = { Kept };

    ghost coded = { kept_code };

    ghost view = { λ s. record { dirty = map.from_entries (map_list (λ e. (e.0, e.1.value)) s.dirty.entries); clean = map.from_entries s.clean.entries; spare = s.spare; room = s.clean.cap } };

    ghost invariant = { λ s. IsStore (record { dirty = map.from_entries (map_list (λ e. (e.0, e.1.value)) s.dirty.entries); clean = map.from_entries s.clean.entries; spare = s.spare; room = s.clean.cap }) (places_of s.dirty) (length s.blocks.items) };
}

impl PageStore {
    /// A store that keeps nothing, and will keep at most `room` clean pages.
    pub fn new(alloc: Global, room: usize) -> Result<Self, AllocError>
        requires { 1 ≤ room }
        ensures { IfOk result (λ store. store ≡ record { dirty = map.empty; clean = map.empty; spare = 0; room = room }) }
    {
        let room = NonZeroUsize::new(room).unwrap();
        Ok(PageStore {
            dirty: HashMap::new(alloc),
            clean: LruCache::new(alloc, room)?,
            blocks: Vec::new(alloc),
            spare: 0,
            alloc,
        })
    }

    /// Reads a page: its dirty content, else that of the block at `at`, which is kept as the page's clean content.
    ///
    /// The disk is read only where the page isn't kept. An error leaves the store as it was, and anything in `into`.
    pub fn read<D: Disk>(
        &mut self,
        disk: &mut D,
        page: (u32, u32),
        at: u32,
        into: &mut Block,
    ) -> Result<(), ReadFault>
        requires at { at < (D.meter disk.old).blocks }
        requires current { IsCurrent self.old page (D.contents disk.old) at }

        ensures content { OnOk result (IsRead self.old page (D.contents disk.old) at into.new) }
        ensures kept { IsSome (map.get self.old.dirty page) ⊎ IsSome (map.get self.old.clean page) → IsOk result × (disk.new ≡ disk.old) }

        ensures store { self.new ≡ record self.old { clean = self.new.clean } }
        ensures clean { OnOk result (map.get self.old.dirty page ≡ None → map.get self.new.clean page ≡ Some into.new) }
        ensures others { OnOk result (MayAdd page into.new self.old.clean self.new.clean) }
        ensures unchanged { IsSome (map.get self.old.dirty page) → self.new ≡ self.old }
        ensures bounded { map.len self.new.clean ≤ self.new.room }
        ensures err { OnErr result (self.new ≡ self.old) }

        ensures reads { OnlyReads D.contents D.meter disk.old disk.new }
        ensures cause { IsCaused ReadFault.Read result D.meter disk.old disk.new }
    {
        if let Some(block) = self.dirty.get(&page) {
            *into = **block;
            return Ok(());
        }
        if let Some(block) = self.clean.peek(&page) {
            *into = *block;
            self.clean.promote(&page);
            return Ok(());
        }
        disk.read(at, into)?;
        self.clean.put(page, *into)?;
        Ok(())
    }

    /// Takes memory ahead, so that at least `n` pages can become dirty without any. An error leaves the store as
    /// it was.
    pub fn ready(&mut self, n: u32) -> Result<(), AllocError>
        ensures ok { OnOk result (self.new ≡ record self.old { spare = max self.old.spare n }) }
        ensures err { OnErr result (self.new ≡ self.old) }
    {
        self.dirty.reserve(n as usize)?;
        fill(&mut self.blocks, self.alloc, n as usize)?;
        self.spare = self.spare.max(n);
        Ok(())
    }

    /// Sets the page's dirty content. It takes no memory: a page that becomes dirty uses up what
    /// [`PageStore::ready`] took for one.
    pub fn put(&mut self, page: (u32, u32), from: &Block)
        requires { map.get self.old.dirty page ≡ None → 0 < self.old.spare }
        ensures { self.new ≡ record { dirty = map.insert self.old.dirty page from.now; clean = map.remove self.old.clean page; spare = self.old.spare - (if is_some (map.get self.old.dirty page) then 0 else 1); room = self.old.room } }
    {
        forget(&mut self.clean, page);
        if let Some(block) = self.dirty.get_mut(&page) {
            **block = *from;
            return;
        }
        let mut block = self.blocks.pop().unwrap();
        *block = *from;
        match self.dirty.insert(page, block) {
            Ok(_) => self.spare -= 1,
            Err(_) => unreachable!(),
        }
    }

    /// The page's dirty content, or `None` exactly where the page isn't dirty.
    pub fn dirty(&self, page: (u32, u32)) -> Option<&Block>
        ensures { option_copied result ≡ map.get self.now.dirty page }
    {
        match self.dirty.get(&page) {
            Some(block) => Some(&**block),
            None => None,
        }
    }

    /// Keeps nothing for the page any more: it was written, or it is no page of its file.
    pub fn leave(&mut self, page: (u32, u32))
        ensures { self.new ≡ record self.old { dirty = map.remove self.old.dirty page; clean = map.remove self.old.clean page } }
    {
        forget(&mut self.clean, page);
        let Some(block) = self.dirty.remove(&page) else {
            return;
        };
        if self.blocks.len() < self.blocks.capacity() {
            self.blocks.push_reserved(block);
        }
    }
}

/// Keeps no clean content of the page.
fn forget(clean: &mut LruCache<(u32, u32), Block>, page: (u32, u32))
    ensures cap { clean.new.cap ≡ clean.old.cap }
    ensures left { map.from_entries {R = page_cmp} clean.new.entries ≡ map.remove (map.from_entries clean.old.entries) page }
{
    if clean.len() > 0 {
        clean.pop(&page);
    }
}

/// Takes blocks until there are at least `n`. An error leaves those that were taken.
fn fill(blocks: &mut Vec<Box<Block>>, alloc: Global, n: usize) -> Result<(), AllocError>
    ensures ok { OnOk result (n ≤ length blocks.new.items) }
    ensures more { length blocks.old.items ≤ length blocks.new.items }
{
    for _ in blocks.len()..n {
        blocks.push(Box::new(alloc, [0; 4096])?)?;
    }
    Ok(())
}
