//! The free blocks of one zone of a volume.
//!
//! A volume has a node zone and a data zone. A block that was in use at any time since the last
//! checkpoint isn't used again before the next one is done, since a crash may bring the last
//! checkpoint's tree back (in the kernel `ckpt_valid_map` of `struct seg_entry` keeps such blocks
//! from reuse, fs/f2fs/segment.c). A third of a zone is for the live tree, a third for the log of the
//! fsyncs, a third for the next checkpoint.
//!
//! What the layer above uses: contracts see a zone as its sets of used, live and drawn addresses and
//! its counts. Each take and each draw gives the least address that isn't used, and there always is
//! one: the counts see to it.
//!
//! The log of the data zone takes its addresses as it writes ([`Zone::take_promised`],
//! [`Zone::take_log`]). That of the node zone draws them ahead ([`Zone::draw`]) and tells when they
//! are written ([`Zone::wrote`]). No zone mixes the two.
//!
//! The definitions stand in `specs/Space.antt`.
#![tactic(auto)]

ghost use Rattle.std.specs.Prelude.{◌≡◌, ℕ, ◌+◌, ◌-◌, ◌*◌, ◌^◌, ◌<◌, ◌≤◌, ◌↔◌, true, false, if◌then◌else◌, IsNone, IsErr, IfSome, IfNone, IfOk, OnOk, OnErr, MatchBool};
ghost use Rattle.std.specs.FinSet as set;
ghost use Rattle.f2_bitset.specs.Numbers.{IsLeastMissing};
ghost use Rattle.f2_space.specs.Space.{IsOfZone, IsLeastFree, IsLeastNotLive, IsShared};

use f2_bitset::BitSet;
use std::alloc::{AllocError, Global};
use std::marker::Model;

/// The log's share of a zone has no room for what was asked.
#[derive(Clone, Copy, Debug, PartialEq, Eq)]
pub struct Room;

/// The blocks of one zone, by their addresses.
///
/// Contracts see it as a `Space`: the range, the sets of the used, live and drawn addresses, and the
/// counts of the log, of the promises, of the checkpoint and of what was kept.
#[derive(Debug, Drop)]
pub struct Zone {
    first: u32,
    c: u32,
    used: BitSet,
    live: BitSet,
    drawn: BitSet,
    log: u32,
    promised: u32,
    cp: u32,
    kept: u32,
}

impl Model for Zone {
    ghost use Rattle.f2_space.specs.Space.{Space, space_code, IsShared, IsOver};

    ghost Value = { Space };

    ghost coded = { space_code };

    ghost view = { λ z. record { first = z.first; c = z.c; used = z.used.members; live = z.live.members; drawn = z.drawn.members; log = z.log; promised = z.promised; cp = z.cp; kept = z.kept } };

    ghost invariant = { λ z. IsOver z.first z.c z.used × IsOver z.first z.c z.live × IsOver z.first z.c z.drawn × IsShared (record { first = z.first; c = z.c; used = z.used.members; live = z.live.members; drawn = z.drawn.members; log = z.log; promised = z.promised; cp = z.cp; kept = z.kept }) };
}

impl Zone {
    /// A zone of `3 * c` addresses from `first` on, none of them used.
    ///
    /// It takes three bits for each address, and no later call takes memory.
    pub fn new(alloc: Global, first: u32, c: u32) -> Result<Self, AllocError>
        requires whole { 1 ≤ c }
        requires fits { first + 3 * c < 2 ^ 32 }
        ensures { IfOk result (λ zone. zone ≡ record { first = first; c = c; used = set.empty; live = set.empty; drawn = set.empty; log = 0; promised = 0; cp = 0; kept = 0 }) }
    {
        Ok(Zone {
            first,
            c,
            used: BitSet::new(alloc, first, 3 * c)?,
            live: BitSet::new(alloc, first, 3 * c)?,
            drawn: BitSet::new(alloc, first, 3 * c)?,
            log: 0,
            promised: 0,
            cp: 0,
            kept: 0,
        })
    }

    /// Promises `n` blocks to the log. It is refused, and nothing changes, exactly where the log's
    /// third has no room for them.
    pub fn reserve(&mut self, n: u32) -> Result<(), Room>
        requires kept { self.old.kept ≤ self.old.c }
        ensures ok { OnOk result (self.new ≡ record self.old { promised = self.old.promised + n }) }
        ensures room { IsErr result ↔ (self.old.c < self.old.log + self.old.promised + n) }
        ensures err { OnErr result (self.new ≡ self.old) }
    {
        if n > self.c - self.log - self.promised {
            return Err(Room);
        }
        self.promised += n;
        Ok(())
    }

    /// Takes the least free address for a block of the log that was promised.
    pub fn take_promised(&mut self) -> u32
        requires promised { 0 < self.old.promised }
        requires none_drawn { set.len self.old.drawn ≡ 0 }
        ensures least { IsLeastFree self.old result }
        ensures taken { self.new ≡ record self.old { used = set.insert self.old.used result; live = set.insert self.old.live result; log = self.old.log + 1; promised = self.old.promised - 1 } }
    {
        let at = take_least(&mut self.used, &mut self.live);
        self.log += 1;
        self.promised -= 1;
        at
    }

    /// Takes the least free address for a block of the log. There is none exactly where log and
    /// promises fill the log's third.
    pub fn take_log(&mut self) -> Option<u32>
        requires kept { self.old.kept ≤ self.old.c }
        requires none_drawn { set.len self.old.drawn ≡ 0 }
        ensures none { IsNone result ↔ (self.old.c ≤ self.old.log + self.old.promised) }
        ensures least { IfSome result (IsLeastFree self.old) }
        ensures taken { IfSome result (λ at. self.new ≡ record self.old { used = set.insert self.old.used at; live = set.insert self.old.live at; log = self.old.log + 1 }) }
        ensures unchanged { IfNone result (self.new ≡ self.old) }
    {
        if self.log + self.promised >= self.c {
            return None;
        }
        let at = take_least(&mut self.used, &mut self.live);
        self.log += 1;
        Some(at)
    }

    /// Takes the least free address for a block of the checkpoint at work.
    pub fn take_cp(&mut self) -> u32
        requires { self.old.cp < self.old.c }
        ensures least { IsLeastFree self.old result }
        ensures taken { self.new ≡ record self.old { used = set.insert self.old.used result; live = set.insert self.old.live result; cp = self.old.cp + 1 } }
    {
        let at = take_least(&mut self.used, &mut self.live);
        self.cp += 1;
        at
    }

    /// The least address that isn't live: where the log begins anew once a checkpoint is done.
    pub fn start(&self) -> u32
        requires { set.len self.now.live ≤ 2 * self.now.c }
        ensures { IsLeastNotLive self.now result }
    {
        self.live.least_missing().unwrap()
    }

    /// Draws the least free address for the log's next block. It is used from now on.
    pub fn draw(&mut self) -> u32
        requires kept { self.old.kept ≤ self.old.c }
        requires room { self.old.log + set.len self.old.drawn < self.old.c }
        ensures least { IsLeastFree self.old result }
        ensures drawn { self.new ≡ record self.old { used = set.insert self.old.used result; drawn = set.insert self.old.drawn result } }
    {
        take_least(&mut self.used, &mut self.drawn)
    }

    /// Says that the log's block at a drawn address is being written, and whether it was promised.
    pub fn wrote(&mut self, at: u32, promised: bool)
        requires drawn { set.contains self.old.drawn at ≡ true }
        requires room { MatchBool promised (0 < self.old.promised) (self.old.log + self.old.promised < self.old.c) }
        ensures { self.new ≡ record self.old { live = set.insert self.old.live at; drawn = set.remove self.old.drawn at; log = self.old.log + 1; promised = self.old.promised - (if promised then 1 else 0) } }
    {
        self.live.insert(at);
        self.drawn.remove(at);
        self.log += 1;
        self.promised -= u32::from(promised);
    }

    /// Takes back the promise of `n` blocks.
    pub fn unpromise(&mut self, n: u32)
        requires { n ≤ self.old.promised }
        ensures { self.new ≡ record self.old { promised = self.old.promised - n } }
    {
        self.promised -= n;
    }

    /// Takes over an address that an image uses. It is live.
    pub fn adopt(&mut self, at: u32)
        requires of_zone { IsOfZone self.old at }
        requires unused { set.contains self.old.used at ≡ false }
        requires two_thirds { self.old.kept < 2 * self.old.c }

        // What goes past the tree's third is taken over while the log has nothing.
        requires log_waits { self.old.c ≤ self.old.kept → self.old.log + self.old.promised + set.len self.old.drawn ≡ 0 }
        ensures { self.new ≡ record self.old { used = set.insert self.old.used at; live = set.insert self.old.live at; kept = self.old.kept + 1 } }
    {
        self.used.insert(at);
        self.live.insert(at);
        self.kept += 1;
    }

    /// Says that a block counts no longer. It stays used until the next [`Zone::committed`].
    pub fn release(&mut self, at: u32)
        requires { set.contains self.old.live at ≡ true }
        ensures { self.new ≡ record self.old { live = set.remove self.old.live at } }
    {
        self.live.remove(at);
    }

    /// A checkpoint is done: what isn't live is free, and the counts begin anew.
    ///
    /// It copies the bitmaps, 64 addresses at a time.
    pub fn committed(&mut self)
        requires { set.len self.old.live ≤ self.old.c }
        ensures { self.new ≡ record self.old { used = self.old.live; drawn = set.empty; log = 0; promised = 0; cp = 0; kept = set.len self.old.live } }
    {
        self.used.copy_from(&self.live);
        self.drawn.clear();
        self.log = 0;
        self.promised = 0;
        self.cp = 0;
        self.kept = self.live.len();
    }

    /// Whether the address was in use at some time since the last checkpoint.
    pub fn used(&self, at: u32) -> bool
        ensures used { result ≡ set.contains self.now.used at }
        ensures shared { IsShared self.now }
    {
        self.used.contains(at)
    }

    /// How many blocks the log wrote since the last checkpoint.
    pub fn logged(&self) -> u32
        ensures logged { result ≡ self.now.log }
        ensures shared { IsShared self.now }
    {
        self.log
    }
}

// Takes the least unused address into a second set over the same range.
fn take_least(used: &mut BitSet, other: &mut BitSet) -> u32
    requires first { used.old.first ≡ other.old.first }
    requires count { used.old.count ≡ other.old.count }
    requires room { set.len used.old.members < used.old.count }
    ensures least { IsLeastMissing used.old result }
    ensures used { used.new ≡ record used.old { members = set.insert used.old.members result } }
    ensures other { other.new ≡ record other.old { members = set.insert other.old.members result } }
{
    let at = used.insert_least().unwrap();
    other.insert(at);
    at
}
