//! What a worker calls round each of its calls.

/// A place where workers may meet. It does nothing in a program, and makes tests of threads possible.
pub trait Meet {
    /// Called before call number `call` of a seat's worker, counted from 0.
    fn before(&self, seat: u8, call: u32);

    /// Called after it.
    fn after(&self, seat: u8, call: u32);
}
