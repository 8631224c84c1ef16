ghost use Rattle.std.specs.Prelude.{◌≡◌, ◌≤◌, true, Some, OnOk, OnErr, option_map};
ghost use Rattle.f2_disk.specs.Contents.{IsImage, WhereTold, alone, blank};
ghost use Rattle.f2_disk.specs.Meter.{HasMoreRoom, IsCalm, MayPlanOne};
ghost use Rattle.f2_disk.specs.Pick.{crash_image, crashed};

use crate::Disk;
use std::alloc::AllocError;

/// A kind of call that a bench can be asked to fail.
#[derive(Clone, Copy, Debug, PartialEq, Eq, Hash)]
pub enum CallKind {
    Read,
    Write,
    Flush,
}

/// A disk in memory that crashes and fails as it is asked to.
pub trait Bench: Disk {
    /// Begins anew with this many blocks of zeros and nothing planned. Without memory it stays as it was.
    fn start(&mut self, blocks: u32) -> Result<(), AllocError>
        ensures blank { OnOk result (Self.contents self.new ≡ Some (blank blocks)) }
        ensures calm { OnOk result (IsCalm blocks (Self.meter self.old) (Self.meter self.new)) }
        ensures kept { OnErr result (Self.contents self.new ≡ Self.contents self.old) }
        ensures same { OnErr result (Self.meter self.new ≡ Self.meter self.old) };

    /// Takes room for `n` writes. Without memory it may have taken some.
    fn ready(&mut self, n: u32) -> Result<(), AllocError>
        ensures room { OnOk result (n ≤ (Self.meter self.new).spare) }
        ensures kept { Self.contents self.new ≡ Self.contents self.old }
        ensures same { HasMoreRoom (Self.meter self.old) (Self.meter self.new) };

    /// Loses power: each block keeps the one of its contents that `pick` numbers, the newest everywhere for
    /// `u64::MAX`. Plans and stops are forgotten.
    fn crash(&mut self, pick: u64)
        ensures crashed { Self.contents self.new ≡ option_map (crashed pick) (Self.contents self.old) }
        // It is one of the images that a crash may leave.
        ensures image { WhereTold (Self.contents self.old) (Self.contents self.new)
            (λ before now. (now ≡ alone (crash_image pick before)) × IsImage before (crash_image pick before)) }
        ensures calm { IsCalm (Self.meter self.old).blocks (Self.meter self.old) (Self.meter self.new) };

    /// Plans that the `n`th call of this kind from now fails, once. It replaces an earlier plan of that kind.
    fn fail_at(&mut self, kind: CallKind, n: u32)
        requires { 1 ≤ n }
        ensures kept { Self.contents self.new ≡ Self.contents self.old }
        ensures planned { MayPlanOne (Self.meter self.old) (Self.meter self.new) };

    /// Plans a stop: the first `n` calls from now go on, those that fail by a plan too, and every later one fails
    /// until the next crash. An earlier stop stands beside it.
    fn stop_after(&mut self, n: u32)
        ensures kept { Self.contents self.new ≡ Self.contents self.old }
        ensures stopped { Self.meter self.new ≡ record (Self.meter self.old) { stopped = true } };
}
