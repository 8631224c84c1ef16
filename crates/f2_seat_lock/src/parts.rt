//! What a lock holds, and what is done to it.
ghost use Rattle.std.specs.Prelude.{◌≡◌, ◌≢◌, ℕ, ◌≤◌, List};
ghost use mathlib.Core.List.{IsPrefix};

/// A value that has a part for each seat, and a log that grows.
pub trait Parts {
    /// A seat's part, as contracts see it. No value of it need be made.
    type Part;

    /// What the log is a list of, as contracts see it. No value of it need be made.
    type Entry;

    /// The part of a seat.
    ghost part: { Self → ℕ → Self.Part };

    /// The log.
    ghost log: { Self → List Self.Entry };

    /// The number of marks in a log.
    ghost marks_in: { List Self.Entry → ℕ };

    /// The number of marks in the log.
    fn marks(&self) -> u64
        ensures { result ≡ marks_in (log self.now) };

    /// The number never falls as the log grows.
    ghost never_falls: { (before after : List Self.Entry) → IsPrefix before after → marks_in before ≤ marks_in after };
}

/// What is done to a value in one hold of the lock, by the seat that holds it. It changes no other seat's part, and extends the log.
pub trait Job<V: Parts> {
    /// What it needs of itself, the seat, the seat's part and the log.
    ghost needs: { Self → ℕ → V.Part → List V.Entry → Type 0 };

    /// What it does, of the seat, and of itself, the seat's part and the log before and after.
    ghost does: { ℕ → Self → V.Part → List V.Entry → Self → V.Part → List V.Entry → Type 0 };

    /// Does it, to a value that no other thread has at the time.
    fn run(&mut self, value: &mut V, seat: u8)
        requires { needs self.old seat (V.part value.old seat) (V.log value.old) }
        ensures does { does seat
            self.old (V.part value.old seat) (V.log value.old)
            self.new (V.part value.new seat) (V.log value.new) }
        ensures others { (other : ℕ) → other ≢ seat → V.part value.new other ≡ V.part value.old other }
        ensures grows { IsPrefix (V.log value.old) (V.log value.new) };
}
