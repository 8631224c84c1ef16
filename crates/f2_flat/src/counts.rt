//! Counts of what the rows of a tree take.
ghost use Rattle.std.specs.Prelude.{◌≡◌};
ghost use Rattle.f2_format.specs.Packing.{slots_of_name};

use f2_model::Name;

/// The bytes of a name slot.
const BYTES_A_SLOT: u64 = 8;

/// What the rows of a tree take of its dentry blocks and of its pages.
#[derive(Clone, Copy)]
pub(crate) struct Counts {
    /// The name slots of all rows.
    pub slots: u64,
    /// The pages of all rows.
    pub pages: u64,
}

/// The name slots that a name takes.
pub(crate) fn slots_of(name: &Name) -> u64
    ensures { result ≡ slots_of_name name.now }
{
    (name.len() as u64).div_ceil(BYTES_A_SLOT)
}
