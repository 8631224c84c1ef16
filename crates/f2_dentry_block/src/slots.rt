//! The slots of a dentry block, and which of them are used.

ghost use Rattle.std.specs.Prelude.{◌≡◌, ◌+◌, ◌/◌, ◌<◌, ◌≤◌};
ghost use Rattle.std.specs.List.{list_all, range_with_len};
ghost use Rattle.f2_format.specs.Dentry.{is_slot_used, with_slot_used, with_slots_used};

use f2_bytes::Block;

/// The slots of a block.
pub(crate) const SLOTS_A_BLOCK: usize = 214;

/// The bytes of a slot.
pub(crate) const BYTES_A_SLOT: usize = 8;

/// The slots that a name of this many bytes takes.
pub(crate) fn slots_of_len(len: usize) -> usize
    ensures { result ≡ (len + 7) / 8 }
{
    len.div_ceil(BYTES_A_SLOT)
}

/// Whether a slot is marked as used.
pub(crate) fn is_used(b: &Block, slot: usize) -> bool
    requires { slot < 214 }
    ensures { result ≡ is_slot_used b.now slot }
{
    b[slot / 8] >> (slot % 8) & 1 == 1
}

/// Whether this many slots from one on are marked as used.
pub(crate) fn are_used(b: &Block, slot: usize, count: usize) -> bool
    requires { slot + count ≤ 214 }
    ensures { result ≡ list_all (is_slot_used b.now) (range_with_len slot count) }
{
    (slot..slot + count).all(|k| is_used(b, k))
}

/// Marks a slot as used.
fn mark(b: &mut Block, slot: usize)
    requires { slot < 214 }
    ensures { b.new ≡ with_slot_used b.old slot }
{
    b[slot / 8] |= 1 << (slot % 8);
}

/// Marks this many slots from one on as used.
pub(crate) fn mark_all(b: &mut Block, slot: usize, count: usize)
    requires { slot + count ≤ 214 }
    ensures { b.new ≡ with_slots_used b.old slot count }
{
    for k in slot..slot + count {
        mark(b, k);
    }
}
