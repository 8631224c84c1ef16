//! The dentry blocks that names take.
ghost use Rattle.std.specs.Prelude.{◌≡◌};
ghost use Rattle.f2_format.specs.Packing.{blocks_of_names};

use f2_model::Name;

/// The name slots of a dentry block.
const SLOTS_A_BLOCK: u64 = 214;

/// The bytes of a name slot.
const BYTES_A_SLOT: u64 = 8;

/// The dentry blocks that names take, packed one after another in this order.
pub(crate) fn blocks_of_names(names: &[Name]) -> u64
    ensures { result ≡ blocks_of_names names.now }
{
    let mut blocks = 0;
    let mut taken = SLOTS_A_BLOCK;
    for name in names {
        let slots = (name.len() as u64).div_ceil(BYTES_A_SLOT);
        if taken + slots <= SLOTS_A_BLOCK {
            taken += slots;
        } else {
            blocks += 1;
            taken = slots;
        }
    }
    blocks
}
