//! The log itself.

ghost use Rattle.std.specs.Prelude.{◌≡◌, ◌+◌, ◌<◌, ◌≤◌, ◌↔◌, false, length, All, IsTrue, IsNone, IfSome, IfNone, OnOk, OnErr, take, []};
ghost use Rattle.std.specs.Bool.{OnTrue};
ghost use Rattle.f2_format.specs.Footer.{FOOTER_VERSION};
ghost use Rattle.f2_footer.specs.Footer.{footer_of};
ghost use Rattle.f2_disk.specs.Contents.{IsWritten, IsWriteFailed, WhereTold};
ghost use Rattle.f2_disk.specs.Meter.{HasFailed, IsWithin};
ghost use Rattle.f2_warm_log.specs.Link.{linked_block};
ghost use Rattle.f2_warm_log.specs.Log.{empty_log, IsNodeLog, IsFirstGap, IsOpen, with_reserved, with_submitted, IsInStep, after_write, DrawsAhead};

use crate::link::link;
use crate::positions::{Position, Slot, lowest_open};
use crate::zone::{begin_write, draw_ahead};
use f2_disk::{Block, Disk, DiskFault};
use f2_space::Zone;
use std::alloc::{AllocError, Global};
use std::marker::Model;

/// The node log since the last checkpoint.
///
/// Contracts see it as a `NodeLog`: the version, the positions in the order of the chain, the address that is drawn
/// ahead, and for how many positions it has memory.
#[derive(Drop)]
pub struct WarmLog {
    version: u64,
    positions: Vec<Position>,
    next: u32,
    room: u32,
    // The least position that isn't submitted, or their number where there is none. It only moves up until a restart.
    gap: u32,
}

impl Model for WarmLog {
    ghost use Rattle.std.specs.Prelude.{vec_capacity};
    ghost use Rattle.f2_warm_log.specs.Log.{NodeLog};
    ghost use Rattle.f2_warm_log.specs.Gaps.{IsLog};

    ghost Value = { NodeLog };

    ghost view = { λ l. record { version = l.version; positions = l.positions.items; next = l.next; room = l.room } };

    ghost invariant = { λ l. IsLog (record { version = l.version; positions = l.positions.items; next = l.next; room = l.room }) l.gap (vec_capacity l.positions) };
}

impl WarmLog {
    /// A log of this version without a position. The first will be at `start`. It takes no memory.
    pub fn new(alloc: Global, start: u32, version: u64) -> Self
        ensures { result ≡ empty_log version start 0 }
    {
        WarmLog {
            version,
            positions: Vec::new(alloc),
            next: start,
            room: 0,
            gap: 0,
        }
    }

    /// Takes memory for `cn` positions in all, before the first of them is reserved; no later call takes any. An error
    /// leaves the log as it was.
    pub fn room(&mut self, cn: u32) -> Result<(), AllocError>
        requires { self.old.positions ≡ [] }
        ensures ok { OnOk result (self.new ≡ record self.old { room = cn }) }
        ensures err { OnErr result (self.new ≡ self.old) }
    {
        self.positions.reserve(cn as usize)?;
        self.room = cn;
        Ok(())
    }

    /// Begins a new log after a checkpoint, in the memory that this one has.
    pub fn restart(&mut self, start: u32, version: u64)
        ensures { self.new ≡ empty_log version start self.old.room }
    {
        self.version = version;
        self.positions.clear();
        self.next = start;
        self.gap = 0;
    }

    /// Reserves the next position: its block is being written at the address that was drawn ahead, and the address of
    /// the one after it is drawn, or is 0 where the log's third of the zone ends. It is refused, and nothing changes,
    /// exactly where no block was promised and the third has no room beside the promises.
    pub fn reserve(&mut self, zone: &mut Zone, promised: bool) -> Option<Slot>
        requires room { self.old.room ≡ zone.old.c }
        requires in_step { IsInStep zone.old self.old }
        requires promised { OnTrue promised (0 < zone.old.promised) }
        requires kept { zone.old.kept ≤ zone.old.c }

        ensures none { IsNone result ↔ ((promised ≡ false) × (zone.old.c ≤ zone.old.log + zone.old.promised)) }
        ensures refused { IfNone result ((self.new ≡ self.old) × (zone.new ≡ zone.old)) }

        ensures at { IfSome result (λ slot. slot.at ≡ self.old.next) }
        ensures position { IfSome result (λ slot. slot.position ≡ length self.old.positions) }
        ensures next { IfSome result (λ slot. DrawsAhead (after_write zone.old slot.at promised) zone.new slot.next) }
        ensures reserved { IfSome result (λ slot. self.new ≡ with_reserved self.old slot) }

        // So the next position can be reserved.
        ensures in_step { IsInStep zone.new self.new }
        ensures share { (zone.new.kept ≡ zone.old.kept) × (zone.new.c ≡ zone.old.c) }
    {
        let at = self.next;
        let position = zone.logged();
        if !begin_write(zone, at, promised) {
            return None;
        }
        let next = draw_ahead(zone, position + 1 < self.room);
        self.positions.push_reserved(Position {
            at,
            next,
            submitted: false,
        });
        self.next = next;
        Some(Slot { at, next, position })
    }

    /// Writes the block of a position that was reserved, with the log's version and the slot's next address in its
    /// footer. The position is submitted then, also where the disk failed: the block may stand there all the same.
    pub fn submit<D: Disk>(
        &mut self,
        disk: &mut D,
        slot: Slot,
        b: &mut Block,
    ) -> Result<(), DiskFault>
        requires is_open { IsOpen self.old slot }
        requires at { slot.at < (D.meter disk.old).blocks }

        ensures block { b.new ≡ linked_block b.old self.old.version slot.next }
        ensures footer { footer_of b.new ≡ record (footer_of b.old) { cp_ver = self.old.version; next = slot.next } }
        ensures kept { take FOOTER_VERSION b.new ≡ take FOOTER_VERSION b.old }

        ensures submitted { self.new ≡ with_submitted self.old slot }

        ensures written { OnOk result (WhereTold (D.contents disk.old) (D.contents disk.new) (IsWritten slot.at b.new)) }
        ensures failed { OnErr result (WhereTold (D.contents disk.old) (D.contents disk.new) (IsWriteFailed slot.at b.new)) }

        ensures cause { OnErr result (HasFailed (D.meter disk.old) (D.meter disk.new)) }
        ensures within { IsWithin 1 (D.meter disk.old) (D.meter disk.new) }
    {
        link(b, self.version, slot.next);
        self.positions[slot.position as usize].submitted = true;
        self.gap = lowest_open(&self.positions, self.gap);
        disk.write(slot.at, b)
    }

    /// The least position that is reserved and not submitted, or `None` exactly where there is none. No position is
    /// looked at.
    pub fn first_gap(&self) -> Option<u32>
        ensures none { IsNone result ↔ All (λ position. IsTrue position.submitted) self.now.positions }
        ensures gap { IfSome result (IsFirstGap self.now.positions) }
        ensures is_log { IsNodeLog self.now }
    {
        if (self.gap as usize) < self.positions.len() {
            Some(self.gap)
        } else {
            None
        }
    }

    /// How many positions are reserved, submitted or not.
    pub fn reserved(&self) -> u32
        ensures count { result ≡ length self.now.positions }
        ensures is_log { IsNodeLog self.now }
    {
        self.positions.len() as u32
    }

    /// The version of the checkpoint that the log follows.
    pub fn version(&self) -> u64
        ensures { result ≡ self.now.version }
    {
        self.version
    }

    /// The address of the next position, which is drawn ahead, or 0 where there is none.
    pub fn next(&self) -> u32
        ensures next { result ≡ self.now.next }
        ensures is_log { IsNodeLog self.now }
    {
        self.next
    }
}
