//! The free nids of a volume.
//!
//! Every node block has a nid, and an inode's nid is its file's ino. A nid can be drawn again only
//! once nothing that a crash may bring back speaks of it: a nid of the last checkpoint's tree stays
//! taken until the next checkpoint, and so does an ino or a nid that the node log holds, since
//! recovery reads that log. The kernel keeps its free nids in `struct f2fs_nm_info`
//! (`free_nid_list` and `free_nid_bitmap`, fs/f2fs/node.c).
//!
//! What the layer above uses: contracts see a pool as its limit and three sets, the live nids, those
//! of the base and the logged ones. [`Pool::take`] draws the least nid that is in none of them, and
//! gives none exactly where there is none. There is one as long as the three sets together have at
//! most 4 fewer members than the limit says.
//!
//! The definitions stand in `specs/Nids.antt`.
#![tactic(auto)]

ghost use Rattle.std.specs.Prelude.{◌≡◌, ◌≢◌, ℕ, ◌+◌, ◌<◌, ◌≤◌, ◌↔◌, true, IsNone, IsSome, IfSome, IfNone, IfOk};
ghost use Rattle.std.specs.FinSet as set;
ghost use Rattle.f2_nid_pool.specs.Nids.{IsFree, IsLeastFree};

use f2_bitset::BitSet;
use std::alloc::{AllocError, Global};
use std::marker::Model;

// The root directory's ino. Those below it name no node of a tree (`F2FS_NODE_INO`, `F2FS_META_INO`).
const ROOT: u32 = 3;

/// The nids of a volume.
///
/// Contracts see it as the limit, which no nid reaches, and the sets of the live nids, of those of
/// the base and of the logged ones.
#[derive(Debug, Drop)]
pub struct Pool {
    limit: u32,
    live: BitSet,
    base: BitSet,
    logged: BitSet,
    // All that can't be drawn.
    taken: BitSet,
}

impl Model for Pool {
    ghost use Rattle.f2_nid_pool.specs.Nids.{Nids, nids_code, IsPool};

    ghost Value = { Nids };

    ghost coded = { nids_code };

    ghost view = { λ p. record { limit = p.limit; live = p.live.members; base = p.base.members; logged = p.logged.members } };

    ghost invariant = { λ p. IsPool p.limit p.live p.base p.logged p.taken };
}

impl Pool {
    /// A pool of the nids below `limit`, of which the root's alone is live and of the base.
    ///
    /// It takes four bits for each nid, and no later call takes memory.
    pub fn new(alloc: Global, limit: u32) -> Result<Self, AllocError>
        requires { 5 ≤ limit }
        ensures { IfOk result (λ pool. pool ≡ record { limit = limit; live = set.insert set.empty 3; base = set.insert set.empty 3; logged = set.empty }) }
    {
        let mut live = BitSet::new(alloc, 0, limit)?;
        live.insert(ROOT);
        let mut base = BitSet::new(alloc, 0, limit)?;
        base.copy_from(&live);
        let logged = BitSet::new(alloc, 0, limit)?;
        let mut taken = BitSet::new(alloc, 0, limit)?;
        take_all_of(&mut taken, &live);
        Ok(Pool {
            limit,
            live,
            base,
            logged,
            taken,
        })
    }

    /// Draws the least free nid, which becomes live. There is none exactly where none is free.
    pub fn take(&mut self) -> Option<u32>
        ensures none { IsNone result ↔ ((nid : ℕ) → ¬ (IsFree self.old nid)) }
        ensures least { IfSome result (IsLeastFree self.old) }
        ensures live { IfSome result (λ nid. self.new ≡ record self.old { live = set.insert self.old.live nid }) }
        ensures unchanged { IfNone result (self.new ≡ self.old) }

        // Of the nids from 4 on, the sets leave one out.
        ensures enough { set.len self.old.live + set.len self.old.base + set.len self.old.logged + 4 ≤ self.old.limit → IsSome result }
    {
        let nid = self.taken.insert_least()?;
        self.live.insert(nid);
        Some(nid)
    }

    /// Ends the life of a nid. It can be drawn again at once if it is neither of the base nor logged,
    /// and else after the next [`Pool::committed`].
    pub fn give(&mut self, nid: u32)
        requires live { set.contains self.old.live nid ≡ true }
        requires not_root { nid ≢ 3 }
        ensures { self.new ≡ record self.old { live = set.remove self.old.live nid } }
    {
        self.live.remove(nid);
        if !self.base.contains(nid) && !self.logged.contains(nid) {
            self.taken.remove(nid);
        }
    }

    /// Says that the node log holds this ino or nid, so that it isn't drawn before the next
    /// [`Pool::committed`].
    pub fn logged(&mut self, nid: u32)
        requires { nid < self.old.limit }
        ensures { self.new ≡ record self.old { logged = set.insert self.old.logged nid } }
    {
        self.logged.insert(nid);
        self.taken.insert(nid);
    }

    /// Takes over a nid that an image uses. It is live and of the base.
    pub fn adopt(&mut self, nid: u32)
        requires from { 4 ≤ nid }
        requires below { nid < self.old.limit }
        ensures { self.new ≡ record self.old { live = set.insert self.old.live nid; base = set.insert self.old.base nid } }
    {
        self.live.insert(nid);
        self.base.insert(nid);
        self.taken.insert(nid);
    }

    /// A checkpoint is done: the base is what is live, and nothing is logged.
    ///
    /// It copies the bitmaps, 64 nids at a time.
    pub fn committed(&mut self)
        ensures { self.new ≡ record self.old { base = self.old.live; logged = set.empty } }
    {
        self.base.copy_from(&self.live);
        self.logged.clear();
        take_all_of(&mut self.taken, &self.live);
    }
}

// Makes what can't be drawn what is live, and 0 to 3, of which the root's is live.
fn take_all_of(taken: &mut BitSet, live: &BitSet)
    requires first { taken.old.first ≡ live.now.first }
    requires count { taken.old.count ≡ live.now.count }
    requires from { live.now.first ≡ 0 }
    requires enough { 3 ≤ live.now.count }
    ensures { taken.new ≡ record live.now { members = set.insert (set.insert (set.insert live.now.members 0) 1) 2 } }
{
    taken.copy_from(live);
    taken.insert(0);
    taken.insert(1);
    taken.insert(2);
}
