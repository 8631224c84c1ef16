ghost use Rattle.std.specs.Prelude.{◌≡◌, ◌<◌, ◌≤◌, [], Some, IfOk, OnOk, OnErr, IfSome, is_err, length, option_map, true};
ghost use Rattle.f2_disk.specs.Bench.{BenchState, meter_of, write_fails, after_write};
ghost use Rattle.f2_disk.specs.Contents.{IsImage, IsWritten, IsWriteFailed, blank, last_of, list_at, flushed};
ghost use Rattle.f2_disk.specs.Meter.{HasFailed, HasMoreRoom, IsCalm, IsWithin, MayPlanOne};
ghost use Rattle.f2_disk.specs.Pick.{crash_image, crashed};
ghost use Rattle.f2_disk.specs.Plans.{no_plans, is_due, after_call, answered, planned, sooner};
ghost use Rattle.f2_disk.specs.declared.bench.CallKind.TheVariants.{Read, Flush};

use crate::plans::Plans;
use crate::store::Store;
use crate::{Bench, Block, CallKind, Disk, DiskFault};
use std::alloc::{AllocError, Global};
use std::marker::Model;

/// A disk in memory that crashes and fails as it is asked to, and not otherwise: a call fails where its plan or the
/// stop is due, and a write also where no room was taken for it. Each write that finds room appends, also one that
/// fails.
#[derive(Drop)]
pub struct MemBench {
    store: Store,
    plans: Plans,
}

impl Model for MemBench {
    ghost use Rattle.f2_disk.specs.Bench.{BenchState};

    ghost Value = { BenchState };

    ghost view = { λ b. record { lists = b.store.lists; spare = b.store.spare; plans = b.plans } };
}

impl MemBench {
    /// A bench of no blocks, with nothing planned and room for no write.
    pub fn new(alloc: Global) -> Result<Self, AllocError>
        ensures { IfOk result (λ bench. bench ≡ record { lists = []; spare = 0; plans = no_plans 0 }) }
    {
        Ok(MemBench {
            store: Store::new(alloc),
            plans: Plans::new(),
        })
    }
}

impl Disk for MemBench {
    ghost contents = { λ b. Some b.lists };

    ghost meter = { meter_of };

    fn blocks(&self) -> u32 {
        self.store.blocks()
    }

    fn faults(&self) -> u64 {
        self.plans.faults()
    }

    /// Fails where its plan or the stop is due.
    fn read(&mut self, at: u32, into: &mut Block) -> Result<(), DiskFault>
        requires { at < length self.old.lists }

        ensures content { OnOk result (into.new ≡ last_of (list_at self.old.lists at)) }
        ensures fails { is_err result ≡ is_due Read self.old.plans }
        ensures after { self.new ≡ record self.old {
          plans = answered (is_due Read self.old.plans) (after_call Read self.old.plans);
        } }

        ensures cause { OnErr result (HasFailed (meter_of self.old) (meter_of self.new)) }
        ensures within { IsWithin 0 (meter_of self.old) (meter_of self.new) }
    {
        let due = self.plans.call(CallKind::Read);
        if !due {
            self.store.read(at, into);
        }
        self.plans.answer(due)
    }

    /// Fails where its plan or the stop is due, and where there is no room. Where there is, the content is appended.
    fn write(&mut self, at: u32, from: &Block) -> Result<(), DiskFault>
        requires { at < length self.old.lists }

        ensures written { OnOk result (IsWritten at from.now self.old.lists self.new.lists) }
        ensures failed { OnErr result (IsWriteFailed at from.now self.old.lists self.new.lists) }
        ensures fails { is_err result ≡ write_fails self.old }
        ensures after { self.new ≡ after_write at from.now self.old }

        ensures cause { OnErr result (HasFailed (meter_of self.old) (meter_of self.new)) }
        ensures within { IsWithin 1 (meter_of self.old) (meter_of self.new) }
    {
        let due = self.plans.call(CallKind::Write);
        let has_room = self.store.put(at, from);
        self.plans.answer(due || !has_room)
    }

    /// Fails where its plan or the stop is due.
    fn flush(&mut self) -> Result<(), DiskFault>
        ensures flushed { OnOk result (self.new.lists ≡ flushed self.old.lists) }
        ensures failed { OnErr result (self.new.lists ≡ self.old.lists) }
        ensures fails { is_err result ≡ is_due Flush self.old.plans }
        ensures plans { self.new.plans ≡ answered (is_due Flush self.old.plans) (after_call Flush self.old.plans) }
        ensures room { self.new.spare ≡ self.old.spare }

        ensures cause { OnErr result (HasFailed (meter_of self.old) (meter_of self.new)) }
        ensures within { IsWithin 0 (meter_of self.old) (meter_of self.new) }
    {
        let due = self.plans.call(CallKind::Flush);
        if !due {
            self.store.flush();
        }
        self.plans.answer(due)
    }
}

impl Bench for MemBench {
    /// The room stays.
    fn start(&mut self, blocks: u32) -> Result<(), AllocError>
        ensures blank { OnOk result (self.new.lists ≡ blank blocks) }
        ensures calm { OnOk result (IsCalm blocks (meter_of self.old) (meter_of self.new)) }
        ensures room { OnOk result (self.new.spare ≡ self.old.spare) }
        ensures plans { OnOk result (self.new.plans ≡ no_plans self.old.plans.faults) }
        ensures same { OnErr result (self.new ≡ self.old) }
    {
        self.store.start(blocks)?;
        self.plans.forget();
        Ok(())
    }

    fn ready(&mut self, n: u32) -> Result<(), AllocError>
        ensures room { OnOk result (n ≤ self.new.spare) }
        ensures kept { self.new.lists ≡ self.old.lists }
        ensures same { HasMoreRoom (meter_of self.old) (meter_of self.new) }
        ensures plans { self.new.plans ≡ self.old.plans }
    {
        self.store.ready(n)
    }

    /// The room stays.
    fn crash(&mut self, pick: u64)
        ensures crashed { self.new.lists ≡ crashed pick self.old.lists }
        ensures image { IsImage self.old.lists (crash_image pick self.old.lists) }
        ensures calm { IsCalm (length self.old.lists) (meter_of self.old) (meter_of self.new) }
        ensures room { self.new.spare ≡ self.old.spare }
        ensures plans { self.new.plans ≡ no_plans self.old.plans.faults }
    {
        self.store.crash(pick);
        self.plans.forget();
    }

    fn fail_at(&mut self, kind: CallKind, n: u32)
        requires { 1 ≤ n }
        ensures after { self.new ≡ record self.old { plans = planned kind n self.old.plans } }
        ensures planned { MayPlanOne (meter_of self.old) (meter_of self.new) }
    {
        self.plans.fail_at(kind, n);
    }

    fn stop_after(&mut self, n: u32)
        ensures after { self.new ≡ record self.old {
          plans = record self.old.plans { stop = sooner n self.old.plans.stop };
        } }
        ensures stopped { meter_of self.new ≡ record (meter_of self.old) { stopped = true } }
    {
        self.plans.stop_after(n);
    }
}
