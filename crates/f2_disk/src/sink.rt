ghost use Rattle.std.specs.Prelude.{ℕ, List, Option};
ghost use Rattle.f2_disk.specs.Faults.{HasCause};
ghost use Rattle.f2_disk.specs.Streams.{SinkAppends, TakesSome};

use crate::Failed;

/// Bytes that go out, in order.
pub trait Sink {
    /// The bytes that were written, where they are known.
    ghost written: { Self → Option (List ℕ) };

    /// How many writes have failed.
    ghost faults: { Self → ℕ };

    /// Takes bytes from the front of `piece`, and gives how many, at least one of a piece that isn't empty.
    /// A fault may have taken some too.
    fn write(&mut self, piece: &[u8]) -> Result<usize, Failed>
        ensures bound { TakesSome result piece.now }
        ensures bytes { SinkAppends (written self.old) (written self.new) result piece.now }
        ensures cause { HasCause (faults self.old) (faults self.new) result };
}
