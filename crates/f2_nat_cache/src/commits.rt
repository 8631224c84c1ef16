//! What a cache is once a checkpoint is done.

ghost use Rattle.std.specs.Prelude.{◌≡◌, ℕ, ◌<◌, Some, IsSome, IsTrue, List, slice_set};
ghost use Rattle.f2_disk.specs.Contents.{Contents};
ghost use Rattle.f2_format.specs.Geometry.{nid_limit};
ghost use Rattle.f2_nat_cache.specs.Plan.{HasWritten, checkpointed, held_after, held_with_pending, is_written};
ghost use Rattle.f2_nat_cache.specs.Table.{IsKept, TellsPending, entry_at, held_block, known};

use crate::cache::{Cache, MOST_JOURNAL_ENTRIES};
use crate::journal::KnownJournal;
use crate::pending::write_pending;

impl Cache {
    /// A checkpoint with this table is done: nothing is dirty, and journal and bitmap are those that it wrote.
    ///
    /// What is held of a block that it wrote is what [`Cache::block`] gave. Clean entries stay as they are, and so does
    /// the memory that [`Cache::room`] took. This takes no memory.
    pub fn committed(&mut self)
        requires { (block : ℕ) → block < self.old.geom.nat → IsTrue (is_written self.old block) → IsSome (held_block self.old block) }
        ensures done { self.new ≡ checkpointed self.old }

        // The map stays, where the disk has what the checkpoint wrote.
        ensures known { (nid : ℕ) → nid < nid_limit self.old.geom → known self.new nid ≡ known self.old nid }
        ensures entries { (before after : Contents) → HasWritten self.old before after → (nid : ℕ) → nid < nid_limit self.old.geom → entry_at self.new after nid ≡ entry_at self.old before nid }
        ensures still_kept { (before after : Contents) → HasWritten self.old before after → IsKept self.old before → IsKept self.new after }
    {
        let journal = self.journal();
        let bitmap = self.bitmap();
        self.write_held();
        self.journal = KnownJournal::new(journal);
        self.bitmap = bitmap;
        self.dirty.clear();
    }

    /// Puts the pending entries of each block that a checkpoint writes into what is held of it.
    fn write_held(&mut self)
        requires { (block : ℕ) → block < self.old.geom.nat → IsTrue (is_written self.old block) → IsSome (held_block self.old block) }
        ensures held { self.new ≡ record self.old { held = held_after self.old } }
        ensures told { (block : ℕ) (content : List ℕ) → block < self.old.geom.nat → IsTrue (is_written self.old block) → held_block self.old block ≡ Some content → TellsPending self.old block content }
    {
        if self.needed() <= MOST_JOURNAL_ENTRIES {
            return;
        }
        for block in 0..self.geometry.nat() {
            if self.is_pending(block) {
                self.write_block(block);
            }
        }
    }

    /// Puts the pending entries of a block into what is held of it.
    fn write_block(&mut self, block: u32)
        requires { IsSome (held_block self.old block) }
        ensures held { self.new ≡ record self.old { held = slice_set self.old.held block (held_with_pending self.old block) } }
        ensures told { (content : List ℕ) → held_block self.old block ≡ Some content → TellsPending self.old block content }
    {
        if let Some(held) = &mut self.held[block as usize] {
            write_pending(&self.dirty, &self.journal, block, held);
        }
    }
}
