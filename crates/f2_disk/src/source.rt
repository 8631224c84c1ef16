ghost use Rattle.std.specs.Prelude.{ℕ, List, Option};
ghost use Rattle.std.specs.Io.{ReadsAtMost};
ghost use Rattle.std.specs.Io.KnownBytes.{ReadConsumes};
ghost use Rattle.f2_disk.specs.Faults.{HasCause};

use thiserror::Error;

/// A read or a write of a stream failed.
#[derive(Clone, Copy, Debug, PartialEq, Eq, Error)]
#[error("the stream failed")]
pub struct Failed;

/// Bytes that come in from outside, in order.
pub trait Source {
    /// The bytes that reads will give from here on, where they are known.
    ghost remaining: { Self → Option (List ℕ) };

    /// How many reads have failed.
    ghost faults: { Self → ℕ };

    /// Moves the next bytes to the front of `into`, and gives how many. 0 for a buffer that isn't empty is the end.
    /// A fault moves none.
    fn read(&mut self, into: &mut [u8]) -> Result<usize, Failed>
        ensures bound { ReadsAtMost result into.new }
        ensures bytes { ReadConsumes (remaining self.old) (remaining self.new) result into.new }
        ensures cause { HasCause (faults self.old) (faults self.new) result };
}
